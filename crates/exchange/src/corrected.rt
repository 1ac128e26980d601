// The example of an omnibus account after trades were moved from one account to another: its totals are 7 units of 5346 for 83,720 yuan
// and 800 shares for 9,176 yuan, and 20 units of 5347 for 610,000 yuan, 5 of them of order type 0 and 15 of order type 5. How trades are
// moved is not looked at: totals are given as they are afterwards. The handbook's replies have no price; 7,147 yuan for 600 shares are
// 500 at 11.91 (5,955) and 100 at 11.92 (1,192), and every other filing comes out even.
use crate::cases::{Case, Line, Name, Open, Step, Total, TradingDay};
use book::Verdict;
use lines::State;

const BOUGHT_5346: Name = Name {
    account: b"9955556",
    security: b"5346  ",
    side: b"B",
};

const SOLD_5347: Name = Name {
    account: b"9955556",
    security: b"5347  ",
    side: b"S",
};

#[rattlefmt::skip]
pub static DAY: TradingDay = TradingDay {
    what: "Omnibus account 9955556 after accounts were corrected, example of the handbook",
    broker: b"1010", date: 20_060_801, first: 90_000_010,
    cases: &[
        Case { what: "7 trading units and 800 shares of 5346 were bought, 20 trading units of 5347 sold", steps: &[
            Step::Total(Total { group: BOUGHT_5346, kind: 0, unit: 1000, quantity: 7, amount: 837_200_000, answer: Ok(0) }),
            Step::Total(Total { group: BOUGHT_5346, kind: 2, unit: 1000, quantity: 800, amount: 91_760_000, answer: Ok(0) }),
            Step::Total(Total { group: SOLD_5347, kind: 0, unit: 1000, quantity: 20, amount: 6_100_000_000, answer: Ok(1) }),
            Step::Open(Open { group: BOUGHT_5346, shares: 7800, amount: 9_289_600, state: State::Unfinished }),
            Step::Open(Open { group: SOLD_5347, shares: 20_000, amount: 61_000_000, state: State::Unfinished }),
        ] },
        Case { what: "Z0001, Z0002 and Z0003 file 6 of the 7 trading units", steps: &[
            Step::Line(Line {
                line: b"101099555565346  B020060801Z0001990001900000003000000035700000001",
                clock: 153_000, answer: Ok(1),
                replies: &[
                    b"101099555565346  B020060801Z00019900019000000030000000357000000019000001000011900000000003000000035700000000000003000000035700000079",
                ],
            }),
            Step::Line(Line {
                line: b"101099555565346  B020060801Z0002990002200000002000000023900000001",
                clock: 153_000, answer: Ok(1),
                replies: &[
                    b"101099555565346  B020060801Z00029900022000000020000000239000000019000001100011950000000005000000059600000000000005000000059600000079",
                ],
            }),
            Step::Line(Line {
                line: b"101099555565346  B020060801Z0003990007700000001000000012120000001",
                clock: 153_000, answer: Ok(1),
                replies: &[
                    b"101099555565346  B020060801Z00039900077000000010000000121200000019000001200012120000000006000000071720000000000006000000071720000079",
                ],
            }),
            Step::Open(Open { group: BOUGHT_5346, shares: 1800, amount: 2_117_600, state: State::Unfinished }),
        ] },
        Case { what: "Z6001 and Z6002 file 1,100 shares as odd lots, 600 of them at 11.91 and 11.92", steps: &[
            Step::Line(Line {
                line: b"101099555565346  B220060801Z6001990007700000500000000006000000001",
                clock: 153_000, answer: Ok(1),
                replies: &[
                    b"101099555565346  B220060801Z60019900077000005000000000060000000019000001300012000000000500000000006000000000000500000000006000000079",
                ],
            }),
            Step::Line(Line {
                line: b"101099555565346  B220060801Z6002990001900000600000000007147000001",
                clock: 153_000, answer: Ok(2),
                replies: &[
                    b"101099555565346  B220060801Z60029900019000005000000000059550000019000001400011910000001000000000011955000000001000000000011955000079",
                    b"101099555565346  B220060801Z60029900019000001000000000011920000019000001500011920000001100000000013147000000001100000000013147000079",
                ],
            }),
            Step::Open(Open { group: BOUGHT_5346, shares: 700, amount: 802_900, state: State::Unfinished }),
        ] },
        Case { what: "Z6003 completes 5346: 1,800 odd lots stand for a trading unit and 800 shares", steps: &[
            Step::Line(Line {
                line: b"101099555565346  B220060801Z6003990002200000700000000008029000001",
                clock: 153_000, answer: Ok(1),
                replies: &[
                    b"101099555565346  B220060801Z60039900022000007000000000080290000019000001600011470000001800000000021176000000001800000000021176000000",
                ],
            }),
            Step::Open(Open { group: BOUGHT_5346, shares: 0, amount: 0, state: State::Complete }),
            Step::Verdict(Verdict::Unfinished),
        ] },
        // The handbook has 30500 as the running amount of Z0005. Two filings of 152,500 are 305,000.
        Case { what: "Z0004, Z0005 and Z0006 complete 5347, with running figures for order types 0 and 5", steps: &[
            Step::Line(Line {
                line: b"101099555565347  S020060801Z0004990003500000005000000152500000001",
                clock: 153_000, answer: Ok(1),
                replies: &[
                    b"101099555565347  S020060801Z00049900035000000050000001525000000019000001700030500000000005000000152500000000000005000000152500000079",
                ],
            }),
            Step::Line(Line {
                line: b"101099555565347  S020060801Z0005990004800000005000000152500000051",
                clock: 153_000, answer: Ok(1),
                replies: &[
                    b"101099555565347  S020060801Z00059900048000000050000001525000000519000001800030500000000010000000305000000000000005000000152500000079",
                ],
            }),
            Step::Line(Line {
                line: b"101099555565347  S020060801Z0006990006400000010000000305000000051",
                clock: 153_000, answer: Ok(1),
                replies: &[
                    b"101099555565347  S020060801Z00069900064000000100000003050000000519000001900030500000000020000000610000000000000015000000457500000000",
                ],
            }),
            Step::Open(Open { group: SOLD_5347, shares: 0, amount: 0, state: State::Complete }),
            Step::Verdict(Verdict::Finished),
        ] },
        Case { what: "the rows are the ten pieces", steps: &[
            Step::Rows(&[
                b"101099555565346  B020060801Z0001900000109900019000000030001190000000000030000000357000000000000030000000357000000",
                b"101099555565346  B020060801Z0002900000119900022000000020001195000000000050000000596000000000000050000000596000000",
                b"101099555565346  B020060801Z0003900000129900077000000010001212000000000060000000717200000000000060000000717200000",
                b"101099555565346  B220060801Z6001900000139900077000005000001200000000005000000000060000000000005000000000060000000",
                b"101099555565346  B220060801Z6002900000149900019000005000001191000000010000000000119550000000010000000000119550000",
                b"101099555565346  B220060801Z6002900000159900019000001000001192000000011000000000131470000000011000000000131470000",
                b"101099555565346  B220060801Z6003900000169900022000007000001147000000018000000000211760000000018000000000211760000",
                b"101099555565347  S020060801Z0004900000179900035000000050003050000000000050000001525000000000000050000001525000000",
                b"101099555565347  S020060801Z0005900000189900048000000050003050005000000100000003050000000000000050000001525000000",
                b"101099555565347  S020060801Z0006900000199900064000000100003050005000000200000006100000000000000150000004575000000",
            ]),
        ] },
    ],
};
