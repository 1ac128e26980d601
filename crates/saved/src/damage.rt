// A single bit changed anywhere in a block is found.
use crate::entries::{fill, number_of};
use blocks::Blocks;
use given::with_byte;
use inspection::{Found, inspect, read_entry};
use std::process::Abort;

const BITS: [u8; 8] = [1, 2, 4, 8, 16, 32, 64, 128];

// Two blocks with eight entries: a full one, and one with a single entry.
fn two_blocks() -> [u8; 1024] {
    let mut bytes = [0xEEu8; 1024];
    let mut ledger = Blocks::new(&mut bytes);
    let _ = fill(&mut ledger, 8);
    bytes
}

// Block 0, which is full.
#[test]
fn full_block(rt: HostRuntime) {
    let bytes = two_blocks();
    let both = Found {
        blocks: 2,
        entries: 8,
    };
    assert_eq!(rt; inspect(&bytes), both);
    let none = Found {
        blocks: 0,
        entries: 0,
    };
    for bit in BITS {
        for place in 0..512 {
            let changed = with_byte(&bytes, place, bytes[place] ^ bit);
            assert_eq!(rt; inspect(&changed), none, "bit {bit} of byte {place}");
        }
    }
}

// Block 1, which has one entry. What is in block 0 is still read.
#[test]
fn started_block(rt: HostRuntime) {
    let bytes = two_blocks();
    assert_eq!(rt; number_of(read_entry(&bytes, 7)), Some(7));
    let first = Found {
        blocks: 1,
        entries: 7,
    };
    for bit in BITS {
        for place in 512..1024 {
            let changed = with_byte(&bytes, place, bytes[place] ^ bit);
            assert_eq!(rt; inspect(&changed), first, "bit {bit} of byte {place}");
            assert_eq!(rt; number_of(read_entry(&changed, 6)), Some(6));
            assert_eq!(rt; number_of(read_entry(&changed, 7)), None);
        }
    }
}
