// Worked figures, as a test: what filings split into, for hosts. Every expected value is worked out from the rules by hand.
use crate::grapewinch_split;

// A filing of `quantity` units of `shares` shares for `amount` cents, and its two runs, each a quantity and a price.
#[derive(Clone, Copy)]
struct Figure {
    quantity: u64,
    shares: u64,
    amount: u64,
    first: (u64, u64),
    second: (u64, u64),
}

const FIGURES: [Figure; 13] = [
    // 3 units of 1,000 shares for 100,010.00: 33.3366.. a share, so 1 at 33.33 and 2 at 33.34
    Figure {
        quantity: 3,
        shares: 1000,
        amount: 10_001_000,
        first: (1, 3333),
        second: (2, 3334),
    },
    // 100,005.00 is no multiple of 1,000 cents
    Figure {
        quantity: 3,
        shares: 1000,
        amount: 10_000_500,
        first: (0, 0),
        second: (0, 0),
    },
    // 7 shares for 1.00: 5 at 0.14 and 2 at 0.15
    Figure {
        quantity: 7,
        shares: 1,
        amount: 100,
        first: (5, 14),
        second: (2, 15),
    },
    // 7 shares for 0.06: a price of nothing is still a run
    Figure {
        quantity: 7,
        shares: 1,
        amount: 6,
        first: (1, 0),
        second: (6, 1),
    },
    // 199,985 shares for 6,414,520.00
    Figure {
        quantity: 199_985,
        shares: 1,
        amount: 641_452_000,
        first: (99_880, 3207),
        second: (100_105, 3208),
    },
    // 1,000 units of 1,000 shares for 10,000,000.00: an even price is one run
    Figure {
        quantity: 1000,
        shares: 1000,
        amount: 1_000_000_000,
        first: (1000, 1000),
        second: (0, 0),
    },
    // 2 shares for 199,999.98, and one cent more
    Figure {
        quantity: 2,
        shares: 1,
        amount: 19_999_998,
        first: (2, 9_999_999),
        second: (0, 0),
    },
    Figure {
        quantity: 2,
        shares: 1,
        amount: 19_999_999,
        first: (1, 9_999_999),
        second: (1, 10_000_000),
    },
    // nothing filed, units of nothing, an amount of nothing
    Figure {
        quantity: 0,
        shares: 1,
        amount: 100,
        first: (0, 0),
        second: (0, 0),
    },
    Figure {
        quantity: 5,
        shares: 0,
        amount: 100,
        first: (0, 0),
        second: (0, 0),
    },
    Figure {
        quantity: 5,
        shares: 10,
        amount: 0,
        first: (5, 0),
        second: (0, 0),
    },
    // the largest numbers: 2^64 - 1 is 2 * 9,223,372,036,854,775,807 + 1
    Figure {
        quantity: 1,
        shares: 1,
        amount: u64::MAX,
        first: (1, u64::MAX),
        second: (0, 0),
    },
    Figure {
        quantity: 2,
        shares: 1,
        amount: u64::MAX,
        first: (1, 9_223_372_036_854_775_807),
        second: (1, 9_223_372_036_854_775_808),
    },
];

#[test]
fn runs_for_hosts(rt: HostRuntime) {
    for f in FIGURES.iter() {
        let r = grapewinch_split(f.quantity, f.shares, f.amount);
        assert_eq!(rt; (r.first_quantity, r.first_price), f.first);
        assert_eq!(rt; (r.second_quantity, r.second_price), f.second);
    }
}
