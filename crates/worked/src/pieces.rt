// What runs are cut into.
use lots::{Cents, Pieces};

// Two runs at 10.00 and 10.01, and the quantities of their pieces.
#[derive(Clone, Copy)]
struct Cut {
    first: u64,
    second: u64,
    cut: bool,
    sizes: &'static [u64],
}

const CUTS: [Cut; 7] = [
    Cut {
        first: 1000,
        second: 0,
        cut: true,
        sizes: &[499, 499, 2],
    },
    Cut {
        first: 1000,
        second: 0,
        cut: false,
        sizes: &[1000],
    },
    Cut {
        first: 499,
        second: 499,
        cut: true,
        sizes: &[499, 499],
    },
    Cut {
        first: 500,
        second: 998,
        cut: true,
        sizes: &[499, 1, 499, 499],
    },
    Cut {
        first: 1,
        second: 500,
        cut: true,
        sizes: &[1, 499, 1],
    },
    Cut {
        first: 3,
        second: 4,
        cut: false,
        sizes: &[3, 4],
    },
    Cut {
        first: 0,
        second: 0,
        cut: true,
        sizes: &[],
    },
];

#[test]
fn pieces(rt: HostRuntime) {
    for c in CUTS.iter() {
        // By hand: a `zip` would not see that one of the two is shorter, and the price goes by what is left.
        let mut sizes = c.sizes.iter().copied();
        let mut left = c.first;
        for piece in Pieces::of(
            (c.first, Cents { count: 1000 }),
            (c.second, Cents { count: 1001 }),
            c.cut,
        ) {
            assert_eq!(rt; Some(piece.quantity), sizes.next());
            // the first run's pieces have its price until they are through
            let price = if left > 0 { 1000 } else { 1001 };
            assert_eq!(rt; piece.price.count, price);
            left = left.saturating_sub(piece.quantity);
        }
        assert_eq!(rt; sizes.next(), None);
    }
}
