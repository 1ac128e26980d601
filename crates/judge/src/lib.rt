//! The grounds for refusing a line, each a test of its own: which of them applies first.
#![tactic(auto)]

mod grounds;
mod heading;
mod terms;
mod totals;

pub use grounds::{Ground, ensure};
pub use heading::{DayBasis, LAST_TRADE_NUMBER, Opened, Target};
pub use terms::Wanted;
pub use totals::{Asked, PlainTotal, TotalTerms, judge_placed, read_terms};
