// The example of a plan: account 9477777 bought 10 units of 2330 for 1,000,000 yuan and 50 shares for 5,000 yuan, all at 100 yuan, and
// files 9 units and 1,050 shares. The heading of the handbook's replies has security 1101; 2330 was filed.
use crate::cases::{Case, Line, Name, Open, Step, TotalRow, TradingDay};
use book::Verdict;
use lines::State;

const GROUP: Name = Name {
    account: b"9477777",
    security: b"2330  ",
    side: b"B",
};

#[rattlefmt::skip]
pub static DAY: TradingDay = TradingDay {
    what: "Plan account 9477777, example of the handbook",
    broker: b"1010", date: 20_170_116, first: 93_000_010,
    cases: &[
        Case { what: "10 trading units for 1,000,000 and 50 shares for 5,000 were bought", steps: &[
            Step::TotalRow(TotalRow { row: b"101094777772330  B020170116000000100000010000000000", unit: 1000, answer: Ok(0) }),
            Step::TotalRow(TotalRow { row: b"101094777772330  B220170116000000500000000050000000", unit: 1000, answer: Ok(0) }),
            Step::Open(Open { group: GROUP, shares: 10_050, amount: 100_500_000, state: State::Unfinished }),
            Step::Verdict(Verdict::Unfinished),
        ] },
        // The handbook has 1,800,000 as the amount of this reply. A single piece has the amount of its filing.
        Case { what: "Z0003 files 9 trading units", steps: &[
            Step::Line(Line {
                line: b"101094777772330  B020170116Z0003101099000190000000900000090000000001",
                clock: 153_000, answer: Ok(1),
                replies: &[
                    b"101094777772330  B020170116Z00031010990001900000009000000900000000019300001000100000000000009000000900000000079",
                ],
            }),
            Step::Open(Open { group: GROUP, shares: 1050, amount: 10_500_000, state: State::Unfinished }),
        ] },
        // The handbook has 80,000 as the amount of both replies, and account 9900022 in the second. A reply has what was filed.
        Case { what: "Z0004 and Z0005 file 1,030 odd lots, with running figures of their own", steps: &[
            Step::Line(Line {
                line: b"101094777772330  B220170116Z0004101099000190000060000000006000000001",
                clock: 153_000, answer: Ok(1),
                replies: &[
                    b"101094777772330  B220170116Z00041010990001900000600000000060000000019300001100100000000000600000000060000000079",
                ],
            }),
            Step::Line(Line {
                line: b"101094777772330  B220170116Z0005101099000350000043000000004300000001",
                clock: 153_000, answer: Ok(1),
                replies: &[
                    b"101094777772330  B220170116Z00051010990003500000430000000043000000019300001200100000000001030000000103000000079",
                ],
            }),
            Step::Open(Open { group: GROUP, shares: 20, amount: 200_000, state: State::Unfinished }),
            Step::Verdict(Verdict::Unfinished),
        ] },
        // The handbook has 3,000 as the amount of this reply, and a running amount of 1,005,000. The filing has 2,000, and the
        // odd lots are 60,000, 43,000 and 2,000 so far.
        Case { what: "Z0006 completes the group: board lots and odd lots together", steps: &[
            Step::Line(Line {
                line: b"101094777772330  B220170116Z0006101099899770000002000000000200000001",
                clock: 153_000, answer: Ok(1),
                replies: &[
                    b"101094777772330  B220170116Z00061010998997700000020000000002000000019300001300100000000001050000000105000000000",
                ],
            }),
            Step::Open(Open { group: GROUP, shares: 0, amount: 0, state: State::Complete }),
            Step::Verdict(Verdict::Finished),
        ] },
        Case { what: "the rows are the four pieces", steps: &[
            Step::Rows(&[
                b"101094777772330  B020170116Z0003930000101010990001900000009001000000000000090000009000000000",
                b"101094777772330  B220170116Z0004930000111010990001900000600001000000000006000000000600000000",
                b"101094777772330  B220170116Z0005930000121010990003500000430001000000000010300000001030000000",
                b"101094777772330  B220170116Z0006930000131010998997700000020001000000000010500000001050000000",
            ]),
        ] },
        Case { what: "deleting the board lots leaves the odd lots", steps: &[
            Step::Line(Line {
                line: b"101094777772330  B020170116         00000000000000000000000000000002",
                clock: 153_000, answer: Ok(1),
                replies: &[
                    b"101094777772330  B020170116         000000000000000000000000000000020000000000000000000000000000000000000000000",
                ],
            }),
            Step::Open(Open { group: GROUP, shares: 9000, amount: 90_000_000, state: State::Unfinished }),
            Step::Verdict(Verdict::Unfinished),
            Step::Rows(&[
                b"101094777772330  B220170116Z0004930000111010990001900000600001000000000006000000000600000000",
                b"101094777772330  B220170116Z0005930000121010990003500000430001000000000010300000001030000000",
                b"101094777772330  B220170116Z0006930000131010998997700000020001000000000010500000001050000000",
            ]),
        ] },
        Case { what: "deleting the odd lots leaves nothing", steps: &[
            Step::Line(Line {
                line: b"101094777772330  B220170116         00000000000000000000000000000002",
                clock: 153_000, answer: Ok(1),
                replies: &[
                    b"101094777772330  B220170116         000000000000000000000000000000020000000000000000000000000000000000000000000",
                ],
            }),
            Step::Open(Open { group: GROUP, shares: 10_050, amount: 100_500_000, state: State::Unfinished }),
            Step::Rows(&[]),
        ] },
        Case { what: "deleting the odd lots once more is refused on ground 25", steps: &[
            Step::Line(Line {
                line: b"101094777772330  B220170116         00000000000000000000000000000002",
                clock: 153_000, answer: Err(25),
                replies: &[
                    b"101094777772330  B220170116         000000000000000000000000000000020000000000000000000000000000000000000000025",
                ],
            }),
            Step::Open(Open { group: GROUP, shares: 10_050, amount: 100_500_000, state: State::Unfinished }),
        ] },
        // Not in the handbook: an order number is free again once no row has it, and a trade number is never used again.
        Case { what: "Z0003 can be filed again, with the next trade number", steps: &[
            Step::Line(Line {
                line: b"101094777772330  B020170116Z0003101099000190000000900000090000000001",
                clock: 153_000, answer: Ok(1),
                replies: &[
                    b"101094777772330  B020170116Z00031010990001900000009000000900000000019300001400100000000000009000000900000000079",
                ],
            }),
            Step::Open(Open { group: GROUP, shares: 1050, amount: 10_500_000, state: State::Unfinished }),
            Step::Rows(&[
                b"101094777772330  B020170116Z0003930000141010990001900000009001000000000000090000009000000000",
            ]),
        ] },
    ],
};
