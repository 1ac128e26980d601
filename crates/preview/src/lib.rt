//! How a filing will come back: its figures judged, and a table of the pieces.
#![tactic(auto)]

mod accepted;
mod asked;
mod judging;
mod lines;
mod reading;
mod refusals;

pub use accepted::Filing;
pub use asked::{Family, FilingTerms, Question, Terms};
pub use judging::{judge, read_filing};
pub use lines::{Line, Table, tabulate};
pub use reading::read_question;
pub use refusals::{Argument, Refusal};
