// One entry of a plan, and the block that holds it.
use crate::entries::{entry, fill};
use blocks::Blocks;
use inspection::read_entry;
use ledger::{Entry, Ledger, OrderNumber};

const BEGIN: [u8; 48] = [
    0x01, 0x00, 0x00, 0x00, 0x00, 0x00, 0x00, 0x00, 0x41, 0x30, 0x30, 0x30, 0x31, 0x39, 0x38, 0x30,
    0x31, 0x40, 0xe2, 0x01, 0x00, 0x02, 0x00, 0x00, 0x00, 0x88, 0x13, 0x00, 0x00, 0x80, 0x4a, 0x5d,
    0x05, 0x02, 0x00, 0x00, 0x00, 0x80, 0x96, 0x98, 0x00, 0x00, 0x00, 0x00, 0x00, 0x00, 0x00, 0x00,
];

#[test]
fn block(rt: HostRuntime) {
    let mut bytes = [0xEEu8; 512];
    let mut ledger = Blocks::new(&mut bytes);
    assert!(rt; ledger.append(entry(0, 0, 90_000_000)));
    let mut wanted = [0u8; 512];
    wanted[..48].copy_from_slice(&BEGIN);
    // 41,742
    wanted[508..].copy_from_slice(&[0x0e, 0xa3, 0, 0]);
    assert_eq!(rt; bytes, wanted);
}

// From the kind to the last amount every byte is its own place in the entry.
const PLACES: Entry = Entry {
    group: 200,
    kind: 0x02,
    order_type: 0x03,
    order: OrderNumber {
        first: 0x04,
        rest: 0x0807_0605,
    },
    new_broker: 0x0c0b_0a09,
    new_account: 0x100f_0e0d,
    quantity: 0x1413_1211,
    price: 0x1817_1615,
    trade_number: 0x1c1b_1a19,
    running_quantity: 0x201f_1e1d,
    running_amount: 0x2827_2625_2423_2221,
    type_quantity: 0x2c2b_2a29,
    type_amount: 0x3433_3231_302f_2e2d,
};

// The ninth entry is the second of block 1: 512 + 4 + 72 is 588.
#[test]
fn fields(rt: HostRuntime) {
    let mut bytes = [0xEEu8; 1024];
    let mut ledger = Blocks::new(&mut bytes);
    assert_eq!(rt; fill(&mut ledger, 8), 8);
    assert!(rt; ledger.append(PLACES));
    assert_eq!(rt; &bytes[588..590], [200, 0].as_slice());
    for (place, byte) in bytes[588..641].iter().enumerate().skip(2) {
        assert_eq!(rt; usize::from(*byte), place);
    }
    assert!(rt; bytes[641..1020].iter().all(|byte| *byte == 0));
    assert_eq!(rt; read_entry(&bytes, 8), Some(PLACES));
}
