//! The worked figures as one list, which is proved to be what the definitions behind the contracts make of it.
#![tactic(auto)]

ghost use Rattle.std.specs.Prelude.{All, ◌≡◌, map};
ghost use Rattle.worked_list.specs.Answers.{Holds};
ghost use Rattle.worked_list.specs.Figures.{figures};
ghost use Rattle.worked_list.specs.Shown.{figure_of};

mod day;
mod worked;

use day::DAY;
use lots::{Cents, Kind, Piece, UnitSize};
pub use worked::{Call, Day, Family, Filing, Step, Worked};

#[rattlefmt::skip]
static TABLE: [Worked; 9] = [
    // 3 trading units for 100,010.00: 1 at 33.33, 2 at 33.34
    Worked::Accepted {
        filing: Filing { family: Family::Plan, kind: Kind::BoardLot, size: UnitSize::Thousand, quantity: 3, amount: Cents { count: 10_001_000 } },
        pieces: &[Piece { quantity: 1, price: Cents { count: 3333 } }, Piece { quantity: 2, price: Cents { count: 3334 } }],
    },
    // for 100,005.00 one share of each unit would not come to whole cents
    Worked::Refused {
        filing: Filing { family: Family::Plan, kind: Kind::BoardLot, size: UnitSize::Thousand, quantity: 3, amount: Cents { count: 10_000_500 } },
        ground: 18,
    },
    // 7 odd lots for 1.00: 5 at 0.14, 2 at 0.15
    Worked::Accepted {
        filing: Filing { family: Family::Plan, kind: Kind::OddLot, size: UnitSize::Thousand, quantity: 7, amount: Cents { count: 100 } },
        pieces: &[Piece { quantity: 5, price: Cents { count: 14 } }, Piece { quantity: 2, price: Cents { count: 15 } }],
    },
    // for 0.06 one share would be at 0.00
    Worked::Refused {
        filing: Filing { family: Family::Plan, kind: Kind::OddLot, size: UnitSize::Thousand, quantity: 7, amount: Cents { count: 6 } },
        ground: 19,
    },
    // 199,985 shares for 6,414,520.00: 99,880 at 32.07, 100,105 at 32.08
    Worked::Split {
        quantity: 199_985, shares: 1, amount: Cents { count: 641_452_000 },
        runs: ((99_880, Cents { count: 3207 }), (100_105, Cents { count: 3208 })),
    },
    // 1,000 trading units of an omnibus account for 10,000,000.00: 499, 499 and 2 at 10.00
    Worked::Accepted {
        filing: Filing { family: Family::Omnibus, kind: Kind::BoardLot, size: UnitSize::Thousand, quantity: 1000, amount: Cents { count: 1_000_000_000 } },
        pieces: &[
            Piece { quantity: 499, price: Cents { count: 1000 } },
            Piece { quantity: 499, price: Cents { count: 1000 } },
            Piece { quantity: 2, price: Cents { count: 1000 } },
        ],
    },
    // 2 odd lots for 199,999.98: both at 99,999.99, the highest price
    Worked::Accepted {
        filing: Filing { family: Family::Plan, kind: Kind::OddLot, size: UnitSize::Thousand, quantity: 2, amount: Cents { count: 19_999_998 } },
        pieces: &[Piece { quantity: 2, price: Cents { count: 9_999_999 } }],
    },
    // for a cent more one share would be above it
    Worked::Refused {
        filing: Filing { family: Family::Plan, kind: Kind::OddLot, size: UnitSize::Thousand, quantity: 2, amount: Cents { count: 19_999_999 } },
        ground: 19,
    },
    // a plan's 3 trading units and 1,030 odd lots, line by line
    Worked::OnDay(DAY),
];

/// The worked figures. The list is that of `Figures.antt`, and in each of them the runs, pieces, grounds, replies and open figures are
/// those that the definitions behind the contracts give.
pub fn worked_list() -> &'static [Worked]
    ensures list { map figure_of result.now ≡ figures }
    ensures hold { All Holds (map figure_of result.now) }
{
    &TABLE
}
