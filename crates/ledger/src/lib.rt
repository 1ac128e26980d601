//! What a ledger is: a list of entries and a capacity that never changes. And the plainest ledger, a table.
#![tactic(auto)]

mod row;
mod table;
mod what;

pub use row::{Entry, Held, OrderNumber, Pick};
pub use table::Table;
pub use what::{Entries, Ledger};
