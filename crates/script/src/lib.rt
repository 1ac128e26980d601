//! Scripts of calls on a day: the lines of a script, the words of a line, and the call that a line makes.
#![tactic(auto)]

mod bytes;
mod calls;
mod lines;
mod numbers;
mod reading;
mod words;

pub use bytes::ByteWord;
pub use calls::{Call, FamilyName, GroupWords, LedgerName, Opening, TotalCall};
pub use lines::Script;
pub use reading::read_call;
