//! Records as tables of fields: a layout is stated once, and both reading and writing go by it.
#![tactic(auto)]

mod contents;
mod field;
mod fill;
mod look;

pub use contents::{Contents, Value};
pub use field::{Field, Item};
pub use fill::put_record;
pub use look::{find, named, part};
