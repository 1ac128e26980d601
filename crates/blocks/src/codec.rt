// The 72 bytes of an entry. Each place stands here twice, once to write and once to read; that both agree is proved: `back`.
ghost use Rattle.std.specs.Prelude.{◌≡◌, ◌+◌, ◌≤◌, length, take, drop};
ghost use Rattle.blocks.specs.Bytes.{entry_bytes, entry_of};

use crate::sizes::ENTRY_BYTES;
use ledger::{Entry, OrderNumber};

// `N` bytes from a place on.
pub(crate) fn bytes_at<const N: usize>(bytes: &[u8], i: usize) -> [u8; N]
    requires { i + N ≤ length bytes.now }
    ensures { result ≡ take N (drop i bytes.now) }
{
    let mut part = [0; N];
    part.copy_from_slice(&bytes[i..i + N]);
    part
}

/// Inner: the entry that 72 bytes tell.
// `bytes` is a slice for the reason that `seal` gives.
pub fn entry_of(bytes: &[u8]) -> Entry
    requires { length bytes.now ≡ 72 }
    ensures { result ≡ entry_of bytes.now }
{
    Entry {
        group: bytes[0],
        kind: bytes[2],
        order_type: bytes[3],
        order: OrderNumber {
            first: bytes[4],
            rest: u32::from_le_bytes(bytes_at(bytes, 5)),
        },
        new_broker: u32::from_le_bytes(bytes_at(bytes, 9)),
        new_account: u32::from_le_bytes(bytes_at(bytes, 13)),
        quantity: u32::from_le_bytes(bytes_at(bytes, 17)),
        price: u32::from_le_bytes(bytes_at(bytes, 21)),
        trade_number: u32::from_le_bytes(bytes_at(bytes, 25)),
        running_quantity: u32::from_le_bytes(bytes_at(bytes, 29)),
        running_amount: u64::from_le_bytes(bytes_at(bytes, 33)),
        type_quantity: u32::from_le_bytes(bytes_at(bytes, 41)),
        type_amount: u64::from_le_bytes(bytes_at(bytes, 45)),
    }
}

/// The 72 bytes of an entry, which tell it again.
pub fn entry_bytes(e: Entry) -> [u8; ENTRY_BYTES]
    ensures bytes { result ≡ entry_bytes e }
    ensures back { entry_of (entry_bytes e) ≡ e }
{
    let mut bytes = [0; ENTRY_BYTES];
    bytes[0] = e.group;
    bytes[2] = e.kind;
    bytes[3] = e.order_type;
    bytes[4] = e.order.first;
    bytes[5..9].copy_from_slice(&e.order.rest.to_le_bytes());
    bytes[9..13].copy_from_slice(&e.new_broker.to_le_bytes());
    bytes[13..17].copy_from_slice(&e.new_account.to_le_bytes());
    bytes[17..21].copy_from_slice(&e.quantity.to_le_bytes());
    bytes[21..25].copy_from_slice(&e.price.to_le_bytes());
    bytes[25..29].copy_from_slice(&e.trade_number.to_le_bytes());
    bytes[29..33].copy_from_slice(&e.running_quantity.to_le_bytes());
    bytes[33..41].copy_from_slice(&e.running_amount.to_le_bytes());
    bytes[41..45].copy_from_slice(&e.type_quantity.to_le_bytes());
    bytes[45..53].copy_from_slice(&e.type_amount.to_le_bytes());
    bytes
}
