// The split of a filing into two runs, each of one price.
ghost use Rattle.std.specs.Prelude.{◌≡◌};
ghost use Rattle.lots.specs.Split.{runs, Law};

use crate::units::{Cents, Shares};

/// A quantity of units, and the price of a share.
// Unlike a `Piece` a tuple: by rule the split answers quantity and price of its two runs so.
pub type Run = (u64, Cents);

/// Splits a filing of `quantity` units of `unit` shares each for `amount` into two runs, each a quantity and a price.
///
/// The first run is at the price rounded down to the cent, the second, of what then is left, one cent above it.
/// An empty run is 0 at 0. Both are empty where `quantity` or `unit` is 0 or `unit` does not divide `amount`.
pub fn split(quantity: u64, unit: Shares, amount: Cents) -> (Run, Run)
    ensures answer { result ≡ runs quantity unit.count amount.count }
    ensures law { Law quantity unit.count amount.count result }
{
    // By rule an empty run is 0 at 0, to C hosts too; so no `Option`.
    let none = Run::default();
    if quantity == 0 || unit.count == 0 || amount.count % unit.count != 0 {
        return (none, none);
    }
    let each = amount.count / unit.count;
    let price = each / quantity;
    let rest = each % quantity;
    let first = (quantity - rest, Cents { count: price });
    if rest == 0 {
        return (first, none);
    }
    (first, (rest, Cents { count: price + 1 }))
}
