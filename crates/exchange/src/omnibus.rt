// The example of an omnibus account: 9955556 bought 11 units of 1101 for 131,360 yuan, sold 20 units of 2330 for 610,000 yuan, 5 of
// them of order type 0 and 15 of order type 5, and bought 62 shares of 3010 as odd lots for 5,454 yuan. A unit holds 1,000 shares.
// - 6 units for 68,860 are 2 at 11.47 (22,940) and 4 at 11.48 (45,920)
// - 16 shares for 1,413 are 12 at 88.31 (1,059.72) and 4 at 88.32 (353.28)
use crate::cases::{Case, Line, Name, Open, Step, Total, TradingDay};
use book::Verdict;
use lines::State;

const BOUGHT_1101: Name = Name {
    account: b"9955556",
    security: b"1101  ",
    side: b"B",
};

const SOLD_2330: Name = Name {
    account: b"9955556",
    security: b"2330  ",
    side: b"S",
};

const BOUGHT_3010: Name = Name {
    account: b"9955556",
    security: b"3010  ",
    side: b"B",
};

#[rattlefmt::skip]
pub static DAY: TradingDay = TradingDay {
    what: "Omnibus account 9955556, example of the handbook",
    broker: b"1010", date: 20_060_801, first: 90_000_000,
    cases: &[
        Case { what: "11 trading units of 1101 and 62 shares of 3010 were bought, 20 trading units of 2330 sold", steps: &[
            Step::Total(Total { group: BOUGHT_1101, kind: 0, unit: 1000, quantity: 11, amount: 1_313_600_000, answer: Ok(0) }),
            Step::Total(Total { group: SOLD_2330, kind: 0, unit: 1000, quantity: 20, amount: 6_100_000_000, answer: Ok(1) }),
            Step::Total(Total { group: BOUGHT_3010, kind: 2, unit: 1000, quantity: 62, amount: 54_540_000, answer: Ok(2) }),
            Step::Open(Open { group: BOUGHT_1101, shares: 11_000, amount: 13_136_000, state: State::Unfinished }),
            Step::Open(Open { group: SOLD_2330, shares: 20_000, amount: 61_000_000, state: State::Unfinished }),
            Step::Open(Open { group: BOUGHT_3010, shares: 62, amount: 545_400, state: State::Unfinished }),
            Step::Verdict(Verdict::Unfinished),
        ] },
        // The handbook has the 4 units at 11.48 before the 2 units at 11.47. The lower price comes first.
        Case { what: "Z0001 comes back at 11.47 and 11.48", steps: &[
            Step::Line(Line {
                line: b"101099555561101  B020060801Z0001990001900000006000000068860000001",
                clock: 153_000, answer: Ok(2),
                replies: &[
                    b"101099555561101  B020060801Z00019900019000000020000000229400000019000000000011470000000002000000022940000000000002000000022940000079",
                    b"101099555561101  B020060801Z00019900019000000040000000459200000019000000100011480000000006000000068860000000000006000000068860000079",
                ],
            }),
            Step::Open(Open { group: BOUGHT_1101, shares: 5000, amount: 6_250_000, state: State::Unfinished }),
        ] },
        Case { what: "Z0002 completes 1101", steps: &[
            Step::Line(Line {
                line: b"101099555561101  B020060801Z0002990002200000005000000062500000001",
                clock: 153_000, answer: Ok(1),
                replies: &[
                    b"101099555561101  B020060801Z00029900022000000050000000625000000019000000200012500000000011000000131360000000000011000000131360000000",
                ],
            }),
            Step::Open(Open { group: BOUGHT_1101, shares: 0, amount: 0, state: State::Complete }),
        ] },
        Case { what: "Z0003 and Z0004 complete 2330, with running figures for order types 0 and 5", steps: &[
            Step::Line(Line {
                line: b"101099555562330  S020060801Z0003990003500000005000000152500000001",
                clock: 153_000, answer: Ok(1),
                replies: &[
                    b"101099555562330  S020060801Z00039900035000000050000001525000000019000000300030500000000005000000152500000000000005000000152500000079",
                ],
            }),
            Step::Open(Open { group: SOLD_2330, shares: 15_000, amount: 45_750_000, state: State::Unfinished }),
            Step::Line(Line {
                line: b"101099555562330  S020060801Z0004990004800000015000000457500000051",
                clock: 153_000, answer: Ok(1),
                replies: &[
                    b"101099555562330  S020060801Z00049900048000000150000004575000000519000000400030500000000020000000610000000000000015000000457500000000",
                ],
            }),
            Step::Open(Open { group: SOLD_2330, shares: 0, amount: 0, state: State::Complete }),
            Step::Verdict(Verdict::Unfinished),
        ] },
        // The handbook has the 4 shares at 88.32 before the 12 shares at 88.31 in both, and running figures in that order. The
        // lower price comes first.
        Case { what: "Z6001 and Z6002 file odd lots of 3010 at 88.31 and 88.32", steps: &[
            Step::Line(Line {
                line: b"101099555563010  B220060801Z6001990001900000016000000001413000001",
                clock: 153_000, answer: Ok(2),
                replies: &[
                    b"101099555563010  B220060801Z60019900019000000120000000010597200019000000500088310000000012000000001059720000000012000000001059720079",
                    b"101099555563010  B220060801Z60019900019000000040000000003532800019000000600088320000000016000000001413000000000016000000001413000079",
                ],
            }),
            Step::Line(Line {
                line: b"101099555563010  B220060801Z6002990002200000016000000001413000001",
                clock: 153_000, answer: Ok(2),
                replies: &[
                    b"101099555563010  B220060801Z60029900022000000120000000010597200019000000700088310000000028000000002472720000000028000000002472720079",
                    b"101099555563010  B220060801Z60029900022000000040000000003532800019000000800088320000000032000000002826000000000032000000002826000079",
                ],
            }),
            Step::Open(Open { group: BOUGHT_3010, shares: 30, amount: 262_800, state: State::Unfinished }),
        ] },
        Case { what: "Z6003 completes 3010, and the day is finished", steps: &[
            Step::Line(Line {
                line: b"101099555563010  B220060801Z6003990003500000030000000002628000001",
                clock: 153_000, answer: Ok(1),
                replies: &[
                    b"101099555563010  B220060801Z60039900035000000300000000026280000019000000900087600000000062000000005454000000000062000000005454000000",
                ],
            }),
            Step::Open(Open { group: BOUGHT_3010, shares: 0, amount: 0, state: State::Complete }),
            Step::Verdict(Verdict::Finished),
        ] },
        Case { what: "the rows are the ten pieces", steps: &[
            Step::Rows(&[
                b"101099555561101  B020060801Z0001900000009900019000000020001147000000000020000000229400000000000020000000229400000",
                b"101099555561101  B020060801Z0001900000019900019000000040001148000000000060000000688600000000000060000000688600000",
                b"101099555561101  B020060801Z0002900000029900022000000050001250000000000110000001313600000000000110000001313600000",
                b"101099555562330  S020060801Z0003900000039900035000000050003050000000000050000001525000000000000050000001525000000",
                b"101099555562330  S020060801Z0004900000049900048000000150003050005000000200000006100000000000000150000004575000000",
                b"101099555563010  B220060801Z6001900000059900019000000120008831000000000120000000010597200000000120000000010597200",
                b"101099555563010  B220060801Z6001900000069900019000000040008832000000000160000000014130000000000160000000014130000",
                b"101099555563010  B220060801Z6002900000079900022000000120008831000000000280000000024727200000000280000000024727200",
                b"101099555563010  B220060801Z6002900000089900022000000040008832000000000320000000028260000000000320000000028260000",
                b"101099555563010  B220060801Z6003900000099900035000000300008760000000000620000000054540000000000620000000054540000",
            ]),
        ] },
        Case { what: "deleting the board lots of 1101", steps: &[
            Step::Line(Line {
                line: b"101099555561101  B0200608010    000000000000000000000000000000002",
                clock: 153_000, answer: Ok(1),
                replies: &[
                    b"101099555561101  B0200608010    0000000000000000000000000000000020000000000000000000000000000000000000000000000000000000000000000000",
                ],
            }),
            Step::Open(Open { group: BOUGHT_1101, shares: 11_000, amount: 13_136_000, state: State::Unfinished }),
            Step::Open(Open { group: SOLD_2330, shares: 0, amount: 0, state: State::Complete }),
            Step::Verdict(Verdict::Unfinished),
        ] },
        Case { what: "deleting the odd lots of 3010 leaves the rows of 2330", steps: &[
            Step::Line(Line {
                line: b"101099555563010  B2200608010    000000000000000000000000000000002",
                clock: 153_000, answer: Ok(1),
                replies: &[
                    b"101099555563010  B2200608010    0000000000000000000000000000000020000000000000000000000000000000000000000000000000000000000000000000",
                ],
            }),
            Step::Open(Open { group: BOUGHT_3010, shares: 62, amount: 545_400, state: State::Unfinished }),
            Step::Rows(&[
                b"101099555562330  S020060801Z0003900000039900035000000050003050000000000050000001525000000000000050000001525000000",
                b"101099555562330  S020060801Z0004900000049900048000000150003050005000000200000006100000000000000150000004575000000",
            ]),
        ] },
    ],
};
