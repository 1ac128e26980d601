//! The book of a day: totals, lines and questions over any ledger, and the law of sums over every list of calls.
#![tactic(auto)]

mod day;
mod instructions;
mod questions;
mod totals;

pub use day::Day;
pub use questions::Verdict;
