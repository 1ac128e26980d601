//! The split for host programs in C and Rust, on plain numbers, as an archive.
#![tactic(auto)]

ghost use Rattle.std.specs.Prelude.{◌≡◌};
ghost use Rattle.lots.specs.Split.{runs};
ghost use Rattle.lots_c.specs.Host.{numbers};

#[cfg(test)]
mod figures;

use lots::{Cents, Shares, split};

/// Two runs as plain numbers: quantities as filed, prices in cents.
#[repr(C)]
#[derive(Clone, Copy)]
pub struct HostRuns {
    pub first_quantity: u64,
    pub first_price: u64,
    pub second_quantity: u64,
    pub second_price: u64,
}

/// `split` for a host: `quantity` units of `shares` shares each, for `amount` cents.
#[unsafe(no_mangle)]
pub extern "C" fn grapewinch_split(quantity: u64, shares: u64, amount: u64) -> HostRuns
    ensures { result ≡ numbers (runs quantity shares amount) }
{
    let (first, second) = split(quantity, Shares { count: shares }, Cents { count: amount });
    // Made in this one place, so no `From`; C has no tuples, and each of the four numbers has a name there.
    HostRuns {
        first_quantity: first.0,
        first_price: first.1.count,
        second_quantity: second.0,
        second_price: second.1.count,
    }
}
