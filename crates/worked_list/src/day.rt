// The worked day of a plan: 3 trading units and 1,030 odd lots come out to totals of 4 trading units and 30 shares.
use crate::worked::{Call, Day, Step};
use lines::State;
use lots::{Cents, Shares};

// files 3 trading units for 150,010.00
#[rattlefmt::skip]
const UNITS: &[u8; 200] = b"585P84777712330  B020240102A0001980101234560000000300000015001000001                                                                                                                                    ";

// 2 at 50.00: 100,000.00
#[rattlefmt::skip]
const UNITS_FIRST: &[u8; 200] = b"585P84777712330  B020240102A00019801012345600000002000000100000000010000000100050000000000002000000100000000079                                                                                         ";

// 1 at 50.01: 50,010.00, together 150,010.00
#[rattlefmt::skip]
const UNITS_SECOND: &[u8; 200] = b"585P84777712330  B020240102A00019801012345600000001000000050010000010000000200050010000000003000000150010000079                                                                                         ";

// files 999 shares for 49,940.00
#[rattlefmt::skip]
const SHARES: &[u8; 200] = b"585P84777712330  B220240102A0002980101234560000099900000004994000001                                                                                                                                    ";

// 1 at 49.98
#[rattlefmt::skip]
const SHARES_FIRST: &[u8; 200] = b"585P84777712330  B220240102A00029801012345600000001000000000049980010000000300049980000000001000000000049980079                                                                                         ";

// 998 at 49.99: 49,890.02, together 49,940.00
#[rattlefmt::skip]
const SHARES_SECOND: &[u8; 200] = b"585P84777712330  B220240102A00029801012345600000998000000049890020010000000400049990000000999000000049940000079                                                                                         ";

// files 31 shares for 1,550.00
#[rattlefmt::skip]
const REST: &[u8; 200] = b"585P84777712330  B220240102A0003980101234560000003100000000155000001                                                                                                                                    ";

// 31 at 50.00, which completes the group: running 1,030 shares and 51,490.00
#[rattlefmt::skip]
const REST_ONLY: &[u8; 200] = b"585P84777712330  B220240102A00039801012345600000031000000001550000010000000500050000000001030000000051490000000                                                                                         ";

// deletes the odd lots
#[rattlefmt::skip]
const DELETION: &[u8; 200] = b"585P84777712330  B220240102A0003980101234560000003100000000155000002                                                                                                                                    ";

// zeros in what is answered, and 00
#[rattlefmt::skip]
const DELETION_ONLY: &[u8; 200] = b"585P84777712330  B220240102A00039801012345600000031000000001550000020000000000000000000000000000000000000000000                                                                                         ";

#[rattlefmt::skip]
const STEPS: &[Step] = &[
    // 4 trading units of 1,000 for 200,000.00
    Step {
        call: Call::Total { kind: 0, unit: 1000, quantity: 4, amount: 2_000_000_000 },
        answer: 0, replies: &[],
        open_figures: (Shares { count: 4000 }, Cents { count: 20_000_000 }, State::Unfinished), rows: 0,
    },
    // 30 shares for 1,500.00
    Step {
        call: Call::Total { kind: 2, unit: 1000, quantity: 30, amount: 15_000_000 },
        answer: 0, replies: &[],
        open_figures: (Shares { count: 4030 }, Cents { count: 20_150_000 }, State::Unfinished), rows: 0,
    },
    // leaves 1,030 shares and 51,490.00
    Step {
        call: Call::Line { bytes: UNITS, clock: 153_000 },
        answer: 2, replies: &[UNITS_FIRST, UNITS_SECOND],
        open_figures: (Shares { count: 1030 }, Cents { count: 5_149_000 }, State::Unfinished), rows: 2,
    },
    // leaves 31 shares and 1,550.00
    Step {
        call: Call::Line { bytes: SHARES, clock: 153_000 },
        answer: 2, replies: &[SHARES_FIRST, SHARES_SECOND],
        open_figures: (Shares { count: 31 }, Cents { count: 155_000 }, State::Unfinished), rows: 4,
    },
    // leaves nothing
    Step {
        call: Call::Line { bytes: REST, clock: 153_000 },
        answer: 1, replies: &[REST_ONLY],
        open_figures: (Shares { count: 0 }, Cents { count: 0 }, State::Complete), rows: 5,
    },
    // leaves the 2 rows of the trading units, and opens 1,030 shares and 51,490.00
    Step {
        call: Call::Line { bytes: DELETION, clock: 153_000 },
        answer: 1, replies: &[DELETION_ONLY],
        open_figures: (Shares { count: 1030 }, Cents { count: 5_149_000 }, State::Unfinished), rows: 2,
    },
];

pub const DAY: Day = Day {
    broker: b"585P",
    date: 20_240_102,
    first: 1,
    places: 16,
    account: b"8477771",
    security: b"2330  ",
    side: b"B",
    steps: STEPS,
};
