// Entries that the tests tell apart by their trade numbers, and the blocks of an empty ledger.
use ledger::{Entry, Ledger, OrderNumber};

// Order number A0001, new broker 9801, new account 0123456, 2 units at 50.00.
pub(crate) fn entry(group: u8, kind: u8, trade_number: u32) -> Entry {
    Entry {
        group,
        kind,
        order_type: 0,
        order: OrderNumber {
            first: 0x41,
            rest: 0x3130_3030,
        },
        new_broker: 0x3130_3839,
        new_account: 123_456,
        quantity: 2,
        price: 5000,
        trade_number,
        running_quantity: 2,
        running_amount: 10_000_000,
        type_quantity: 0,
        type_amount: 0,
    }
}

// The trade number of an entry that was read.
pub(crate) fn number_of(read: Option<Entry>) -> Option<u32> {
    read.map(|e| e.trade_number)
}

// Appends entries of group 0 with the trade numbers from 0 on, and answers how many were taken. Entries with even numbers
// are of kind 0, the others of kind 2.
pub(crate) fn fill<L: Ledger>(ledger: &mut L, wanted: u32) -> u32 {
    // Counted by hand: a `filter` that appends as it goes would hide the call that counts.
    let mut taken = 0u32;
    for trade_number in 0..wanted {
        let kind = if trade_number % 2 == 0 { 0 } else { 2 };
        if ledger.append(entry(0, kind, trade_number)) {
            taken = taken.saturating_add(1);
        }
    }
    taken
}

// Two empty blocks are zeros, but for the number of block 1 and its checksum of 1 times 3.
pub(crate) fn two_empty_blocks() -> [u8; 1024] {
    let mut bytes = [0u8; 1024];
    bytes[514] = 1;
    bytes[1020] = 3;
    bytes
}
