//! The groups of a day and their totals: a plain table of at most 64 groups, numbered from 0 by first total.
#![tactic(auto)]

mod asking;
mod kept;

pub use asking::is_over;
pub use kept::{
    Group, GroupTable, MOST_CENTS, MOST_GROUPS, MOST_SHARES, MOST_TOTALS, Place, Total, Traded,
};
