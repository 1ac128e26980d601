//! The inspection as an archive for programs in C, on bytes and plain numbers.
#![tactic(auto)]

#[cfg(test)]
mod example;

ghost use Rattle.std.specs.Prelude.{◌≡◌};
ghost use Rattle.std.specs.List.{slice_get};
ghost use Rattle.inspection.specs.Sound.{found as found_in, sound_entries};
ghost use Rattle.inspection_c.specs.Host.{numbers};

use inspection::{Found, inspect, read_entry};
use ledger::Entry;

/// An entry in plain numbers; `found` is 1, or 0 with all other numbers 0 where there is no such entry.
///
/// C has no `Option`: the number beside the values is what tells the two apart.
#[repr(C)]
#[derive(Clone, Copy, PartialEq, Eq, Debug, Default)]
pub struct HostEntry {
    pub found: u64,
    pub group: u64,
    pub kind: u64,
    pub order_type: u64,
    pub order_first: u64,
    pub order_rest: u64,
    pub new_broker: u64,
    pub new_account: u64,
    pub quantity: u64,
    pub price: u64,
    pub trade_number: u64,
    pub running_quantity: u64,
    pub running_amount: u64,
    pub type_quantity: u64,
    pub type_amount: u64,
}

impl From<Option<Entry>> for HostEntry {
    ghost from_gives = { λ read host. host ≡ numbers read };

    /// An entry that was read, or none, in plain numbers.
    fn from(read: Option<Entry>) -> HostEntry {
        match read {
            Some(e) => HostEntry {
                found: 1,
                group: u64::from(e.group),
                kind: u64::from(e.kind),
                order_type: u64::from(e.order_type),
                order_first: u64::from(e.order.first),
                order_rest: u64::from(e.order.rest),
                new_broker: u64::from(e.new_broker),
                new_account: u64::from(e.new_account),
                quantity: u64::from(e.quantity),
                price: u64::from(e.price),
                trade_number: u64::from(e.trade_number),
                running_quantity: u64::from(e.running_quantity),
                running_amount: e.running_amount,
                type_quantity: u64::from(e.type_quantity),
                type_amount: e.type_amount,
            },
            None => HostEntry::default(),
        }
    }
}

/// `inspect` for a host.
#[unsafe(no_mangle)]
pub extern "C" fn grapewinch_inspect(bytes: &[u8]) -> Found
    ensures { result ≡ found_in bytes.now }
{
    inspect(bytes)
}

/// `read_entry` for a host.
#[unsafe(no_mangle)]
pub extern "C" fn grapewinch_read_entry(bytes: &[u8], index: u64) -> HostEntry
    ensures { result ≡ numbers (slice_get (sound_entries bytes.now) index) }
{
    // A `usize` has 64 bits, so the cast loses nothing.
    HostEntry::from(read_entry(bytes, index as usize))
}
