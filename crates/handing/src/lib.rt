//! Two programs as they have to be written.
#![tactic(auto)]

mod right;

pub use right::{hand_twice, shares_asked};
