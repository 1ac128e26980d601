// The entries of a table, saved as blocks.
use crate::entries::{entry, fill, number_of};
use blocks::Blocks;
use inspection::{inspect, read_entry, save};
use ledger::Table;

// The bytes are those of a ledger in blocks that got the same entries, and past the blocks as they were.
#[test]
fn all_fit(rt: HostRuntime) {
    let mut entries = [entry(9, 0, 77); 12];
    let mut table = Table::new(&mut entries);
    assert_eq!(rt; fill(&mut table, 9), 9);
    let mut saved = [0xEEu8; 1030];
    assert_eq!(rt; save(&table, &mut saved), 9);
    let mut own = [0xEEu8; 1030];
    let mut ledger = Blocks::new(&mut own);
    assert_eq!(rt; fill(&mut ledger, 9), 9);
    assert_eq!(rt; saved, own);
    assert_eq!(rt; &saved[1024..], [0xEE; 6].as_slice());
}

// One block takes the first seven.
#[test]
fn some_fit(rt: HostRuntime) {
    let mut entries = [entry(9, 0, 77); 12];
    let mut table = Table::new(&mut entries);
    assert_eq!(rt; fill(&mut table, 9), 9);
    let mut saved = [0xEEu8; 1023];
    assert_eq!(rt; save(&table, &mut saved), 7);
    assert_eq!(rt; inspect(&saved).entries, 7);
    assert_eq!(rt; number_of(read_entry(&saved, 6)), Some(6));
    assert_eq!(rt; saved[512], 0xEE);
    assert_eq!(rt; save(&table, &mut [0xEEu8; 511]), 0);
}
