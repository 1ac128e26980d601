// What ledgers take of the memory that they are lent.
use crate::entries::{entry, number_of, two_empty_blocks};
use blocks::Blocks;
use inspection::read_entry;
use ledger::{Ledger, Table};
use std::alloc::Global;
use std::process::Abort;
use std::test::Fail;

fn capacity_over(bytes: &mut [u8]) -> usize {
    let ledger = Blocks::new(bytes);
    ledger.capacity()
}

#[test]
fn no_block(rt: HostRuntime) {
    let mut none = [0xEEu8; 0];
    assert_eq!(rt; capacity_over(&mut none), 0);
    let mut short = [0xEEu8; 511];
    assert_eq!(rt; capacity_over(&mut short), 0);
    assert_eq!(rt; short, [0xEE; 511]);
}

#[test]
fn one_block(rt: HostRuntime) {
    let mut one = [0xEEu8; 512];
    assert_eq!(rt; capacity_over(&mut one), 7);
    // an empty block 0 is zeros, and so is its checksum
    assert_eq!(rt; one, [0; 512]);
    let mut more = [0xEEu8; 1023];
    assert_eq!(rt; capacity_over(&mut more), 7);
    let mut wanted = [0xEEu8; 1023];
    wanted[..512].fill(0);
    assert_eq!(rt; more, wanted);
}

#[test]
fn two_blocks(rt: HostRuntime) {
    let mut two = [0xEEu8; 1024];
    assert_eq!(rt; capacity_over(&mut two), 14);
    assert_eq!(rt; two, two_empty_blocks());
}

// What is handed back is all that was lent: the entry, and what lies past it.
#[test]
fn handed_back(rt: HostRuntime) {
    let mut bytes = [0xEEu8; 513];
    let mut blocks = Blocks::new(&mut bytes);
    assert!(rt; blocks.append(entry(0, 0, 5)));
    let bytes = blocks.into_bytes();
    assert_eq!(rt; number_of(read_entry(bytes, 0)), Some(5));
    assert_eq!(rt; bytes.last().copied(), Some(0xEE));
    let mut entries = [entry(9, 0, 77); 2];
    let mut table = Table::new(&mut entries);
    assert!(rt; table.append(entry(0, 0, 5)));
    let entries = table.into_entries();
    assert_eq!(rt; number_of(entries.first().copied()), Some(5));
    assert_eq!(rt; number_of(entries.last().copied()), Some(77));
}

// A ledger over `len` bytes takes the most blocks, and these places hold these bytes then.
fn check_most(
    rt: &impl Abort,
    heap: Global,
    len: usize,
    places: [(usize, u8); 4],
) -> Result<(), Fail> {
    let mut bytes = vec![in heap; 0xEEu8; len]?;
    assert_eq!(rt; capacity_over(&mut bytes), 7994);
    for (place, byte) in places {
        assert_eq!(rt; bytes.get(place).copied(), Some(byte), "byte {place}");
    }
    Ok(())
}

// Block 1,141 begins at byte 584,192. Its number is 117 + 4 × 256, and its checksum 117 × 3 + 4 × 4 = 367, which is
// 111 + 256.
#[test]
fn most_blocks(rt: HostRuntime) -> Result<(), Fail> {
    let places = [(584_194, 117), (584_195, 4), (584_700, 111), (584_701, 1)];
    check_most(&rt, rt.alloc(), 584_704, places)
}

// Block 1,142 is left as it was.
#[test]
fn one_block_too_many(rt: HostRuntime) -> Result<(), Fail> {
    let places = [
        (584_194, 117),
        (584_703, 0),
        (584_704, 0xEE),
        (585_215, 0xEE),
    ];
    check_most(&rt, rt.alloc(), 585_216, places)
}
