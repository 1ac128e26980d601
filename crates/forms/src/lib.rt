//! The exchange's records to the byte: what a line tells, what a reply and a row hold, and what a row of totals says.
#![tactic(auto)]

mod contents;
mod records;
mod telling;
mod totals;

pub use contents::{GroupName, Heading, PieceReply, Repeat, Retained, Row};
pub use records::{field, number, put_form, put_forms, put_forms_from};
pub use telling::{NotTold, Told, tell};
pub use totals::{BadField, TotalRow, kind_of, read_group, read_security, read_total, side_of};
