//! Whole numbers and amounts of yuan as people write them: read from a word, and shown.
#![tactic(auto)]

mod read;
mod show;

pub use read::{LONGEST_NUMBER, MOST_YUAN, read_number, read_yuan};
pub use show::{show_cents, show_number};
