//! Shares, trading units and cents, how a filing is split into runs and pieces, and the limits of a filing.
#![tactic(auto)]

mod cut;
mod limits;
mod runs;
mod units;

pub use cut::{LARGEST_PIECE, Piece, Pieces};
pub use limits::{HIGHEST_PRICE, MOST_ODD_SHARES, amount_fits, price_fits, quantity_fits};
pub use runs::{Run, split};
pub use units::{
    Cents, Kind, Lot, Shares, TEN_THOUSANDTHS_PER_CENT, TradingUnits, UnitSize, UnknownKind,
    UnknownUnit,
};
