// What a filing's quantity, amount and prices may be.
ghost use Rattle.std.specs.Prelude.{◌≡◌};
ghost use Rattle.lots.specs.Limits.{quantity_fits, amount_fits, price_fits};

use crate::runs::Run;
use crate::units::{Cents, Kind, Lot, TradingUnits};

/// The most shares in a filing of odd lots.
pub const MOST_ODD_SHARES: u64 = 999;

/// The highest price of a share, in cents.
pub const HIGHEST_PRICE: u64 = 9_999_999;

/// Whether a filing may have this quantity: at least 1; board lots at most `most` trading units; odd lots at most
/// 999 shares and fewer than a trading unit holds.
pub fn quantity_fits(lot: Lot, most: TradingUnits, quantity: u64) -> bool
    ensures { result ≡ quantity_fits lot.kind lot.size most.count quantity }
{
    match lot.kind {
        Kind::BoardLot => (1..=u64::from(most.count)).contains(&quantity),
        Kind::OddLot => (1..=MOST_ODD_SHARES).contains(&quantity)
            && quantity < lot.size.shares().count,
    }
}

/// Whether a filing may have this amount: at least one cent and, for board lots, a multiple of as many cents as a
/// trading unit holds shares.
pub fn amount_fits(lot: Lot, amount: Cents) -> bool
    ensures { result ≡ amount_fits lot.kind lot.size amount.count }
{
    amount.count >= 1 && amount.count % lot.shares_each().count == 0
}

/// Whether a run may have its price: 1 to 9,999,999 cents. An empty run has none.
pub fn price_fits(run: Run) -> bool
    ensures { result ≡ price_fits run }
{
    run.0 == 0 || (1..=HIGHEST_PRICE).contains(&run.1.count)
}
