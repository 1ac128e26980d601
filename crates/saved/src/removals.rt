// Taking out a group and kind.
use crate::entries::{entry, fill, number_of, two_empty_blocks};
use blocks::Blocks;
use inspection::{Found, inspect, read_entry};
use ledger::{Ledger, Table};
use std::process::Abort;

// Fourteen entries of group 0, kinds 0 and 2 in turn: what goes, and which stay.
fn take_out<L: Ledger>(rt: &impl Abort, ledger: &mut L) {
    assert_eq!(rt; fill(ledger, 14), 14);
    // none of group 1, and none of kind 1
    assert_eq!(rt; ledger.remove(1, 0), 0);
    assert_eq!(rt; ledger.remove(0, 1), 0);
    assert_eq!(rt; ledger.count(), 14);
    // an entry's place is its trade number; a `u32` has no `From` into `usize`
    for number in 0..14u32 {
        assert_eq!(rt; number_of(ledger.read(number as usize)), Some(number));
    }
    // every other one goes, and those with odd numbers stay
    assert_eq!(rt; ledger.remove(0, 0), 7);
    assert_eq!(rt; ledger.count(), 7);
    for (place, number) in [1, 3, 5, 7, 9, 11, 13].iter().enumerate() {
        assert_eq!(rt; number_of(ledger.read(place)), Some(*number));
    }
    assert_eq!(rt; number_of(ledger.read(7)), None);
    // none of that kind is left, and the next entry comes last
    assert_eq!(rt; ledger.remove(0, 0), 0);
    assert!(rt; ledger.append(entry(1, 2, 50)));
    assert_eq!(rt; ledger.count(), 8);
    assert_eq!(rt; number_of(ledger.read(7)), Some(50));
    // all of the group, but not of the other one
    assert_eq!(rt; ledger.remove(0, 2), 7);
    assert_eq!(rt; ledger.count(), 1);
    assert_eq!(rt; number_of(ledger.read(0)), Some(50));
    assert_eq!(rt; ledger.remove(1, 2), 1);
    assert_eq!(rt; ledger.count(), 0);
    assert_eq!(rt; number_of(ledger.read(0)), None);
    assert_eq!(rt; ledger.capacity(), 14);
}

#[test]
fn table(rt: HostRuntime) {
    let mut entries = [entry(9, 0, 77); 14];
    let mut ledger = Table::new(&mut entries);
    take_out(&rt, &mut ledger);
}

#[test]
fn blocks(rt: HostRuntime) {
    let mut bytes = [0xEEu8; 1024];
    let mut ledger = Blocks::new(&mut bytes);
    take_out(&rt, &mut ledger);
    // the blocks are those of an empty ledger again
    assert_eq!(rt; bytes, two_empty_blocks());
}

// Of fourteen entries seven go, so that one block is full and one is empty.
#[test]
fn one_block_is_left(rt: HostRuntime) {
    let mut bytes = [0xEEu8; 1024];
    let mut ledger = Blocks::new(&mut bytes);
    assert_eq!(rt; fill(&mut ledger, 14), 14);
    assert_eq!(rt; ledger.remove(0, 0), 7);
    assert_eq!(rt; bytes[0], 7);
    assert_eq!(rt; bytes[512], 0);
    let found = Found {
        blocks: 2,
        entries: 7,
    };
    assert_eq!(rt; inspect(&bytes), found);
}

// The blocks of a ledger to which eight entries were appended: six of kind 2, and two of group 1.
fn eight_appended(rt: &impl Abort) -> [u8; 1024] {
    let mut bytes = [0x11u8; 1024];
    let mut ledger = Blocks::new(&mut bytes);
    for trade_number in [1, 3, 5, 7, 9, 11] {
        assert!(rt; ledger.append(entry(0, 2, trade_number)));
    }
    assert!(rt; ledger.append(entry(1, 0, 50)));
    assert!(rt; ledger.append(entry(1, 0, 51)));
    bytes
}

// A full block and one with a single entry, and the last three of the eight.
fn check_eight(rt: &impl Abort, bytes: &[u8; 1024]) {
    assert_eq!(rt; bytes[0], 7);
    assert_eq!(rt; bytes[512], 1);
    assert_eq!(rt; inspect(bytes).entries, 8);
    assert_eq!(rt; number_of(read_entry(bytes, 5)), Some(11));
    assert_eq!(rt; number_of(read_entry(bytes, 6)), Some(50));
    assert_eq!(rt; number_of(read_entry(bytes, 7)), Some(51));
    assert_eq!(rt; number_of(read_entry(bytes, 8)), None);
}

// Of fourteen entries six go, and the blocks are those of a ledger to which only the other eight were appended.
#[test]
fn eight_are_left(rt: HostRuntime) {
    let mut bytes = [0xEEu8; 1024];
    let mut ledger = Blocks::new(&mut bytes);
    assert_eq!(rt; fill(&mut ledger, 12), 12);
    assert!(rt; ledger.append(entry(1, 0, 50)));
    assert!(rt; ledger.append(entry(1, 0, 51)));
    assert_eq!(rt; ledger.remove(0, 0), 6);
    assert_eq!(rt; bytes, eight_appended(&rt));
    check_eight(&rt, &bytes);
}

// An emptied ledger takes as many as before.
fn begin_again<L: Ledger>(rt: &impl Abort, ledger: &mut L) {
    assert_eq!(rt; fill(ledger, 15), 14);
    ledger.empty();
    assert_eq!(rt; ledger.count(), 0);
    assert_eq!(rt; number_of(ledger.read(0)), None);
    assert_eq!(rt; fill(ledger, 15), 14);
    assert_eq!(rt; ledger.count(), 14);
}

#[test]
fn emptied(rt: HostRuntime) {
    let mut entries = [entry(9, 0, 77); 14];
    let mut table = Table::new(&mut entries);
    begin_again(&rt, &mut table);
    let mut bytes = [0xEEu8; 1024];
    let mut blocks = Blocks::new(&mut bytes);
    begin_again(&rt, &mut blocks);
}
