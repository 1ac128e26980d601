//! The records of the exchange's handbooks to the byte, and the edges of what their fields may hold, as tests. Every
//! expected value is worked out by hand from the rules and the handbooks' examples; where an example goes against its own
//! figures, or shows the higher price first, the rules are followed.
#![tactic(auto)]

#[cfg(test)]
mod accounts;
#[cfg(test)]
mod fields;
#[cfg(test)]
mod lines;
#[cfg(test)]
mod omnibus;
#[cfg(test)]
mod plan;
#[cfg(test)]
mod records;
#[cfg(test)]
mod totals;
