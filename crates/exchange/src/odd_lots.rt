// Odd lots where a trading unit holds 100 shares: they are fewer than a unit, so that 99 pass and 100 do not. 5 units were bought for
// 50,000 yuan, and every share is filed at 100 yuan.
use crate::cases::{Case, Line, Name, Open, Step, Total, TradingDay};
use lines::State;

const PLAN_GROUP: Name = Name {
    account: b"9477777",
    security: b"2330  ",
    side: b"B",
};

#[rattlefmt::skip]
pub static PLAN: TradingDay = TradingDay {
    what: "Plan account, 100 shares in a trading unit",
    broker: b"1010", date: 20_170_116, first: 1,
    cases: &[
        Case { what: "5 trading units are 500 shares", steps: &[
            Step::Total(Total { group: PLAN_GROUP, kind: 0, unit: 100, quantity: 5, amount: 500_000_000, answer: Ok(0) }),
            Step::Open(Open { group: PLAN_GROUP, shares: 500, amount: 5_000_000, state: State::Unfinished }),
        ] },
        Case { what: "odd lots of 100 shares are refused on ground 17", steps: &[
            Step::Line(Line {
                line: b"101094777772330  B220170116A0001101099000190000010000000001000000001",
                clock: 153_000, answer: Err(17),
                replies: &[
                    b"101094777772330  B220170116A00011010990001900000100000000010000000010000000000000000000000000000000000000000017",
                ],
            }),
            Step::Open(Open { group: PLAN_GROUP, shares: 500, amount: 5_000_000, state: State::Unfinished }),
        ] },
        Case { what: "odd lots of 99 shares pass", steps: &[
            Step::Line(Line {
                line: b"101094777772330  B220170116A0001101099000190000009900000000990000001",
                clock: 153_000, answer: Ok(1),
                replies: &[
                    b"101094777772330  B220170116A00011010990001900000099000000009900000010000000100100000000000099000000009900000079",
                ],
            }),
            Step::Open(Open { group: PLAN_GROUP, shares: 401, amount: 4_010_000, state: State::Unfinished }),
        ] },
        Case { what: "100 shares pass as a trading unit", steps: &[
            Step::Line(Line {
                line: b"101094777772330  B020170116A0002101099000190000000100000001000000001",
                clock: 153_000, answer: Ok(1),
                replies: &[
                    b"101094777772330  B020170116A00021010990001900000001000000010000000010000000200100000000000001000000010000000079",
                ],
            }),
            Step::Open(Open { group: PLAN_GROUP, shares: 301, amount: 3_010_000, state: State::Unfinished }),
        ] },
    ],
};

const OMNIBUS_GROUP: Name = Name {
    account: b"9955556",
    security: b"1101  ",
    side: b"B",
};

#[rattlefmt::skip]
pub static OMNIBUS: TradingDay = TradingDay {
    what: "Omnibus account, 100 shares in a trading unit",
    broker: b"1010", date: 20_060_801, first: 1,
    cases: &[
        Case { what: "5 trading units are 500 shares", steps: &[
            Step::Total(Total { group: OMNIBUS_GROUP, kind: 0, unit: 100, quantity: 5, amount: 500_000_000, answer: Ok(0) }),
            Step::Open(Open { group: OMNIBUS_GROUP, shares: 500, amount: 5_000_000, state: State::Unfinished }),
        ] },
        Case { what: "odd lots of 100 shares are refused on ground 17", steps: &[
            Step::Line(Line {
                line: b"101099555561101  B220060801A0001990001900000100000000010000000001",
                clock: 153_000, answer: Err(17),
                replies: &[
                    b"101099555561101  B220060801A00019900019000001000000000100000000010000000000000000000000000000000000000000000000000000000000000000017",
                ],
            }),
            Step::Open(Open { group: OMNIBUS_GROUP, shares: 500, amount: 5_000_000, state: State::Unfinished }),
        ] },
        Case { what: "odd lots of 99 shares pass", steps: &[
            Step::Line(Line {
                line: b"101099555561101  B220060801A0001990001900000099000000009900000001",
                clock: 153_000, answer: Ok(1),
                replies: &[
                    b"101099555561101  B220060801A00019900019000000990000000099000000010000000100100000000000099000000009900000000000099000000009900000079",
                ],
            }),
            Step::Open(Open { group: OMNIBUS_GROUP, shares: 401, amount: 4_010_000, state: State::Unfinished }),
        ] },
        Case { what: "100 shares pass as a trading unit", steps: &[
            Step::Line(Line {
                line: b"101099555561101  B020060801A0002990001900000001000000010000000001",
                clock: 153_000, answer: Ok(1),
                replies: &[
                    b"101099555561101  B020060801A00029900019000000010000000100000000010000000200100000000000001000000010000000000000001000000010000000079",
                ],
            }),
            Step::Open(Open { group: OMNIBUS_GROUP, shares: 301, amount: 3_010_000, state: State::Unfinished }),
        ] },
    ],
};
