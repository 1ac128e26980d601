//! Ledgers and their blocks in figures, as tests. Every expected value is worked out from the layout by hand.
#![tactic(auto)]

#[cfg(test)]
mod copies;
#[cfg(test)]
mod counts;
#[cfg(test)]
mod damage;
#[cfg(test)]
mod entries;
#[cfg(test)]
mod example;
#[cfg(test)]
mod faults;
#[cfg(test)]
mod removals;
#[cfg(test)]
mod sizes;
