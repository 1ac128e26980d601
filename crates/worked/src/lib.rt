//! Worked figures and refusals, as tests. Every expected value is worked out from the rules by hand.
#![tactic(auto)]

#[cfg(test)]
mod pieces;
#[cfg(test)]
mod refusals;
