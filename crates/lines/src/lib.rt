//! What lines come to: how a group stands, what a filing enters and what it is answered, and what a retention takes.
#![tactic(auto)]

mod appending;
mod entering;
mod entries;
mod open;
mod piece_replies;
mod retained;
mod room;
mod taking;

pub use entering::{Accepted, enter};
pub use entries::Entering;
pub use open::{Standing, State, Survey, standing_of, survey_for};
pub use retained::{answered_count, put_retained};
pub use room::{judge_order, judge_room};
pub use taking::{Taken, is_any_taken, take_groups, taken_by};
