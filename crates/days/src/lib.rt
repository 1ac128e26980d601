//! Days and transfers in figures, as tests. Every expected value is worked out from the rules by hand.
#![tactic(auto)]

#[cfg(test)]
mod accounts;
#[cfg(test)]
mod grounds;
#[cfg(test)]
mod plans;
#[cfg(test)]
mod told;
#[cfg(test)]
mod totals;
#[cfg(test)]
mod transfers;
