// The example of a retention: account 9955558 bought 7 units of 5346 for 83,720 yuan, and 50 units of 5347 for 3,750,000 yuan and 800
// shares for 60,000 yuan; it sold 8 units of 5348 for 403,000 yuan. It files all of 5346 and a part of 5347, and keeps the rest.
use crate::cases::{Case, Line, Name, Open, Step, Total, TradingDay};
use book::Verdict;
use lines::State;

const BOUGHT_5346: Name = Name {
    account: b"9955558",
    security: b"5346  ",
    side: b"B",
};

const BOUGHT_5347: Name = Name {
    account: b"9955558",
    security: b"5347  ",
    side: b"B",
};

const SOLD_5348: Name = Name {
    account: b"9955558",
    security: b"5348  ",
    side: b"S",
};

#[rattlefmt::skip]
pub static DAY: TradingDay = TradingDay {
    what: "Omnibus account 9955558 retains what is unfinished, example of the handbook",
    broker: b"5XXX", date: 20_120_326, first: 90_000_010,
    cases: &[
        // The handbook has 5348 by order type: 5 units for 250,000 of type 0 and 3 units for 153,000 of type 5. A total is over
        // all types.
        Case { what: "5346 and 5347 were bought, 5348 was sold", steps: &[
            Step::Total(Total { group: BOUGHT_5346, kind: 0, unit: 1000, quantity: 7, amount: 837_200_000, answer: Ok(0) }),
            Step::Total(Total { group: BOUGHT_5347, kind: 0, unit: 1000, quantity: 50, amount: 37_500_000_000, answer: Ok(1) }),
            Step::Total(Total { group: BOUGHT_5347, kind: 2, unit: 1000, quantity: 800, amount: 600_000_000, answer: Ok(1) }),
            Step::Total(Total { group: SOLD_5348, kind: 0, unit: 1000, quantity: 8, amount: 4_030_000_000, answer: Ok(2) }),
            Step::Open(Open { group: BOUGHT_5346, shares: 7000, amount: 8_372_000, state: State::Unfinished }),
            Step::Open(Open { group: BOUGHT_5347, shares: 50_800, amount: 381_000_000, state: State::Unfinished }),
            Step::Open(Open { group: SOLD_5348, shares: 8000, amount: 40_300_000, state: State::Unfinished }),
        ] },
        Case { what: "Z0001 and Z0002 complete 5346", steps: &[
            Step::Line(Line {
                line: b"5XXX99555585346  B020120326Z0001990001900000004000000047840000001",
                clock: 153_000, answer: Ok(1),
                replies: &[
                    b"5XXX99555585346  B020120326Z00019900019000000040000000478400000019000001000011960000000004000000047840000000000004000000047840000079",
                ],
            }),
            Step::Line(Line {
                line: b"5XXX99555585346  B020120326Z0002990002200000003000000035880000001",
                clock: 153_000, answer: Ok(1),
                replies: &[
                    b"5XXX99555585346  B020120326Z00029900022000000030000000358800000019000001100011960000000007000000083720000000000007000000083720000000",
                ],
            }),
            Step::Open(Open { group: BOUGHT_5346, shares: 0, amount: 0, state: State::Complete }),
        ] },
        Case { what: "Z0003 and Z0004 file all board lots of 5347, which stays unfinished", steps: &[
            Step::Line(Line {
                line: b"5XXX99555585347  B020120326Z0003990003400000030000002250000000001",
                clock: 153_000, answer: Ok(1),
                replies: &[
                    b"5XXX99555585347  B020120326Z00039900034000000300000022500000000019000001200075000000000030000002250000000000000030000002250000000079",
                ],
            }),
            Step::Line(Line {
                line: b"5XXX99555585347  B020120326Z0004990004700000020000001500000000001",
                clock: 153_000, answer: Ok(1),
                replies: &[
                    b"5XXX99555585347  B020120326Z00049900047000000200000015000000000019000001300075000000000050000003750000000000000050000003750000000079",
                ],
            }),
            Step::Open(Open { group: BOUGHT_5347, shares: 800, amount: 6_000_000, state: State::Unfinished }),
        ] },
        // The handbook has security 2230 in this filing, and side S in the replies for 5347. The account bought 5347, and has
        // nothing of 2230.
        Case { what: "Z6001 files 500 of its 800 odd lots", steps: &[
            Step::Line(Line {
                line: b"5XXX99555585347  B220120326Z6001990005800000500000000037250000001",
                clock: 153_000, answer: Ok(1),
                replies: &[
                    b"5XXX99555585347  B220120326Z60019900058000005000000000372500000019000001400074500000000500000000037250000000000500000000037250000079",
                ],
            }),
            Step::Open(Open { group: BOUGHT_5347, shares: 300, amount: 2_275_000, state: State::Unfinished }),
            Step::Verdict(Verdict::Unfinished),
        ] },
        Case { what: "the rows are the five pieces", steps: &[
            Step::Rows(&[
                b"5XXX99555585346  B020120326Z0001900000109900019000000040001196000000000040000000478400000000000040000000478400000",
                b"5XXX99555585346  B020120326Z0002900000119900022000000030001196000000000070000000837200000000000070000000837200000",
                b"5XXX99555585347  B020120326Z0003900000129900034000000300007500000000000300000022500000000000000300000022500000000",
                b"5XXX99555585347  B020120326Z0004900000139900047000000200007500000000000500000037500000000000000500000037500000000",
                b"5XXX99555585347  B220120326Z6001900000149900058000005000007450000000005000000000372500000000005000000000372500000",
            ]),
        ] },
        // The handbook has two replies for 5348, one for each order type. A reply is for a security, side and kind, and has 0 as
        // order type.
        Case { what: "the retention takes 5347 and 5348 as they were traded", steps: &[
            Step::Line(Line {
                line: b"5XXX9955558ZZZZZZS220120326     995555800000000000000000000000001",
                clock: 173_000, answer: Ok(3),
                replies: &[
                    b"5XXX99555585347  B020120326     9955558000000000000000000000000010000000000000000000000050000003750000000000000000000000000000000000",
                    b"5XXX99555585347  B220120326     9955558000000000000000000000000010000000000000000000000800000000060000000000000000000000000000000000",
                    b"5XXX99555585348  S020120326     9955558000000000000000000000000010000000000000000000000008000000403000000000000000000000000000000000",
                ],
            }),
            Step::Open(Open { group: BOUGHT_5346, shares: 0, amount: 0, state: State::Complete }),
            Step::Open(Open { group: BOUGHT_5347, shares: 50_800, amount: 381_000_000, state: State::Retained }),
            Step::Open(Open { group: SOLD_5348, shares: 8000, amount: 40_300_000, state: State::Retained }),
            Step::Verdict(Verdict::Finished),
        ] },
        Case { what: "the rows of 5346 are left", steps: &[
            Step::Rows(&[
                b"5XXX99555585346  B020120326Z0001900000109900019000000040001196000000000040000000478400000000000040000000478400000",
                b"5XXX99555585346  B020120326Z0002900000119900022000000030001196000000000070000000837200000000000070000000837200000",
            ]),
        ] },
        Case { what: "a filing of the account after its retention is refused on ground 12", steps: &[
            Step::Line(Line {
                line: b"5XXX99555585348  S020120326Z0005990001900000005000000250000000001",
                clock: 174_500, answer: Err(12),
                replies: &[
                    b"5XXX99555585348  S020120326Z00059900019000000050000002500000000010000000000000000000000000000000000000000000000000000000000000000012",
                ],
            }),
            Step::Open(Open { group: SOLD_5348, shares: 8000, amount: 40_300_000, state: State::Retained }),
        ] },
    ],
};
