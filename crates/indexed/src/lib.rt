//! A ledger with an index, whose answers do not cost more the more entries there are.
#![tactic(auto)]

mod index;
mod indexed;

pub use indexed::Indexed;
