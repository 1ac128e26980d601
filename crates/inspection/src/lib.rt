//! The inspection of saved blocks, which may be damaged or foreign, and saving a ledger so that it reads back.
#![tactic(auto)]

mod faults;
mod look;
mod saving;

pub use faults::{Fault, Found};
pub use look::{first_fault, inspect, read_entry};
pub use saving::save;
