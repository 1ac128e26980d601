// How many entries two blocks, or fourteen places, take.
use crate::entries::{entry, fill, number_of};
use blocks::Blocks;
use inspection::{Found, inspect, read_entry};
use ledger::{Ledger, Table};
use std::process::Abort;

// So many entries are offered; `first` and `second` are those that block 0 and block 1 hold then.
#[derive(Clone, Copy)]
struct Offer {
    offered: u32,
    first: u8,
    second: u8,
    taken: u32,
}

const OFFERS: [Offer; 6] = [
    Offer {
        offered: 0,
        first: 0,
        second: 0,
        taken: 0,
    },
    Offer {
        offered: 1,
        first: 1,
        second: 0,
        taken: 1,
    },
    Offer {
        offered: 7,
        first: 7,
        second: 0,
        taken: 7,
    },
    Offer {
        offered: 8,
        first: 7,
        second: 1,
        taken: 8,
    },
    Offer {
        offered: 14,
        first: 7,
        second: 7,
        taken: 14,
    },
    Offer {
        offered: 15,
        first: 7,
        second: 7,
        taken: 14,
    },
];

// A `u32` has no `From` into `usize`, hence each `as`.
// The first fourteen entries are taken and no other, and they are read in order: an entry's place is its trade number.
fn take_fourteen<L: Ledger>(rt: &impl Abort, ledger: &mut L, o: &Offer) {
    assert_eq!(rt; ledger.capacity(), 14);
    assert_eq!(rt; ledger.count(), 0);
    assert_eq!(rt; fill(ledger, o.offered), o.taken);
    assert_eq!(rt; ledger.count(), o.taken as usize);
    for number in 0..o.taken {
        assert_eq!(rt; number_of(ledger.read(number as usize)), Some(number));
    }
    assert_eq!(rt; number_of(ledger.read(o.taken as usize)), None);
    assert_eq!(rt; number_of(ledger.read(usize::MAX)), None);
    assert_eq!(rt; ledger.append(entry(0, 0, 99)), o.taken < 14);
}

#[test]
fn table(rt: HostRuntime) {
    for o in OFFERS.iter() {
        let mut entries = [entry(9, 0, 77); 14];
        let mut ledger = Table::new(&mut entries);
        take_fourteen(&rt, &mut ledger, o);
    }
}

#[test]
fn blocks(rt: HostRuntime) {
    for o in OFFERS.iter() {
        let mut bytes = [0xEEu8; 1024];
        let mut ledger = Blocks::new(&mut bytes);
        take_fourteen(&rt, &mut ledger, o);
    }
}

#[test]
fn counts_in_blocks(rt: HostRuntime) {
    for o in OFFERS.iter() {
        let mut bytes = [0xEEu8; 1024];
        let mut ledger = Blocks::new(&mut bytes);
        assert_eq!(rt; fill(&mut ledger, o.offered), o.taken);
        assert_eq!(rt; &bytes[..4], [o.first, 0, 0, 0].as_slice());
        assert_eq!(rt; &bytes[512..516], [o.second, 0, 1, 0].as_slice());
        let found = Found {
            blocks: 2,
            entries: u64::from(o.taken),
        };
        assert_eq!(rt; inspect(&bytes), found);
        for number in 0..o.taken {
            assert_eq!(rt;
                number_of(read_entry(&bytes, number as usize)),
                Some(number)
            );
        }
        assert_eq!(rt; number_of(read_entry(&bytes, o.taken as usize)), None);
        assert_eq!(rt; number_of(read_entry(&bytes, usize::MAX)), None);
    }
}

// A refused entry changes no byte.
#[test]
fn refused(rt: HostRuntime) {
    let mut bytes = [0xEEu8; 1024];
    let mut ledger = Blocks::new(&mut bytes);
    assert_eq!(rt; fill(&mut ledger, 14), 14);
    let mut more = [0xEEu8; 1024];
    let mut ledger = Blocks::new(&mut more);
    assert_eq!(rt; fill(&mut ledger, 16), 14);
    assert_eq!(rt; more, bytes);
}
