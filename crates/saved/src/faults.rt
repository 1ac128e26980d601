// Blocks that fail a test, beside the nearest that do not. Every checksum is the sum of byte × (place + 1), but where the
// checksum is what is wrong.
use given::with_byte;
use inspection::{Fault, first_fault};

// A block of zeros but for its count, its number, one byte more and its checksum.
fn block(count: u8, number: u8, at: usize, byte: u8, checksum: u16) -> [u8; 512] {
    let mut block = [0u8; 512];
    block[0] = count;
    block[2] = number;
    block[508..510].copy_from_slice(&checksum.to_le_bytes());
    with_byte(&block, at, byte)
}

// Block 0 with so many empty entries, and a block after it.
fn after(held: u8, second: [u8; 512]) -> [u8; 1024] {
    let mut both = [0u8; 1024];
    both[0] = held;
    both[508] = held;
    both[512..].copy_from_slice(&second);
    both
}

#[test]
fn counts(rt: HostRuntime) {
    assert_eq!(rt; first_fault(&block(0, 0, 4, 0, 0)), None);
    assert_eq!(rt; first_fault(&block(7, 0, 4, 0, 7)), None);
    assert_eq!(rt; first_fault(&block(8, 0, 4, 0, 8)), Some(Fault::Count(8)));
    // 256 entries
    assert_eq!(rt; first_fault(&block(0, 0, 1, 1, 2)), Some(Fault::Count(256)));
}

#[test]
fn numbers(rt: HostRuntime) {
    assert_eq!(rt; first_fault(&after(7, block(0, 1, 4, 0, 3))), None);
    assert_eq!(rt;
        first_fault(&after(7, block(0, 2, 4, 0, 6))),
        Some(Fault::Number(2))
    );
    assert_eq!(rt; first_fault(&block(0, 1, 4, 0, 3)), Some(Fault::Number(1)));
    // number 256
    assert_eq!(rt;
        first_fault(&block(0, 0, 3, 1, 4)),
        Some(Fault::Number(256))
    );
    // number 257 at place 1: 3 + 4
    assert_eq!(rt;
        first_fault(&after(7, block(0, 1, 3, 1, 7))),
        Some(Fault::Number(257))
    );
}

#[test]
fn checksums(rt: HostRuntime) {
    assert_eq!(rt;
        first_fault(&block(0, 0, 4, 0, 1)),
        Some(Fault::Checksum { sum: 0, stored: 1 })
    );
    assert_eq!(rt;
        first_fault(&block(1, 0, 4, 0, 0)),
        Some(Fault::Checksum { sum: 1, stored: 0 })
    );
    // the two high bytes count as well: 1 + 65,536 and 1 + 16,777,216
    assert_eq!(rt;
        first_fault(&block(1, 0, 510, 1, 1)),
        Some(Fault::Checksum {
            sum: 1,
            stored: 65_537
        })
    );
    assert_eq!(rt;
        first_fault(&block(1, 0, 511, 1, 1)),
        Some(Fault::Checksum {
            sum: 1,
            stored: 16_777_217
        })
    );
    assert_eq!(rt; first_fault(&block(1, 0, 511, 0, 1)), None);
}

#[test]
fn unused_places(rt: HostRuntime) {
    assert_eq!(rt; first_fault(&block(0, 0, 4, 1, 5)), Some(Fault::Unused(4)));
    // the last byte of the first entry that counts, and the one after it: 1 + 57 and 1 + 77
    assert_eq!(rt; first_fault(&block(1, 0, 56, 1, 58)), None);
    assert_eq!(rt;
        first_fault(&block(1, 0, 76, 1, 78)),
        Some(Fault::Unused(76))
    );
    // the last place: 6 + 508
    assert_eq!(rt;
        first_fault(&block(6, 0, 507, 1, 514)),
        Some(Fault::Unused(507))
    );
}

#[test]
fn fillers(rt: HostRuntime) {
    // group, filler, kind
    assert_eq!(rt; first_fault(&block(1, 0, 4, 1, 6)), None);
    assert_eq!(rt; first_fault(&block(1, 0, 5, 1, 7)), Some(Fault::Filler(0)));
    assert_eq!(rt; first_fault(&block(1, 0, 6, 1, 8)), None);
    // the first and the last of the nineteen bytes: 1 + 58 and 1 + 76
    assert_eq!(rt;
        first_fault(&block(1, 0, 57, 1, 59)),
        Some(Fault::Filler(0))
    );
    assert_eq!(rt;
        first_fault(&block(1, 0, 75, 1, 77)),
        Some(Fault::Filler(0))
    );
    // the second entry's: 2 + 78; and the last byte of the seventh's: 7 + 508
    assert_eq!(rt;
        first_fault(&block(2, 0, 77, 1, 80)),
        Some(Fault::Filler(1))
    );
    assert_eq!(rt;
        first_fault(&block(7, 0, 507, 1, 515)),
        Some(Fault::Filler(6))
    );
}

#[test]
fn gaps(rt: HostRuntime) {
    assert_eq!(rt; first_fault(&after(7, block(1, 1, 4, 0, 4))), None);
    assert_eq!(rt;
        first_fault(&after(6, block(1, 1, 4, 0, 4))),
        Some(Fault::Gap(6))
    );
    assert_eq!(rt;
        first_fault(&after(0, block(1, 1, 4, 0, 4))),
        Some(Fault::Gap(0))
    );
    assert_eq!(rt; first_fault(&after(6, block(0, 1, 4, 0, 3))), None);
}

// A block that fails two tests: the first of them is told.
#[test]
fn order(rt: HostRuntime) {
    assert_eq!(rt; first_fault(&block(8, 1, 4, 0, 11)), Some(Fault::Count(8)));
    assert_eq!(rt; first_fault(&block(0, 1, 4, 0, 0)), Some(Fault::Number(1)));
    assert_eq!(rt;
        first_fault(&block(0, 0, 4, 1, 0)),
        Some(Fault::Checksum { sum: 5, stored: 0 })
    );
    // a filler and an unused place: 1 + 6 + 77
    let both = with_byte(&block(1, 0, 5, 1, 84), 76, 1);
    assert_eq!(rt; first_fault(&both), Some(Fault::Unused(76)));
    // a filler in a block after one that is not full: 1 + 3 + 6
    assert_eq!(rt;
        first_fault(&after(6, block(1, 1, 5, 1, 10))),
        Some(Fault::Filler(0))
    );
}
