//! Fields of the exchange's records: digits, texts, dates and clocks, and what a buffer holds once a field is written into it.
#![tactic(auto)]

mod clock;
mod digits;
mod texts;

pub use clock::{is_clock, is_date};
pub use digits::{put_digits, read_digits};
pub use texts::{is_code, is_security, pack, put_packed};
