// Looking at one block, and at all of them.
// Each `as` is between `usize` and `u64`, and proved to keep its value; a `try_from` would have a case that never comes.
ghost use Rattle.std.specs.Prelude.{◌≡◌, ◌+◌, ◌*◌, ◌<◌, ◌≤◌, true, false, cond, List, length};
ghost use Rattle.std.specs.Option.{IfSome, MatchOption};
ghost use Rattle.std.specs.Result.{result_err};
ghost use Rattle.std.specs.Simd.{first_chunks};
ghost use Rattle.inspection.specs.Sound.{count_in, number_in, checksum_in, zeros_in, all_zero, clean, all_clean, clean_before, fault_in, found, sound_entries, first_fault};
ghost use Rattle.inspection.specs.Laws.{Image, FindsAll, FindsOnly};
ghost use Rattle.ledger.specs.declared.row.Entry.{Entry as Row};
ghost use Rattle.std.specs.List.{slice_get};
ghost use Rattle.blocks.specs.Image.{blocks_in};

use crate::faults::{Fault, Found};
use blocks::{
    BLOCK_BYTES, CHECKSUM_AT, ENTRIES_PER_BLOCK, ENTRY_BYTES, PLACES_AT, blocks_in, checksum,
    entry_at,
};
use ledger::Entry;

// A block's bytes.
type Block = [u8; BLOCK_BYTES];

// The count and the number are read by a function each, named as a block's parts are: one for both would ask that its place is within.

// How many entries a block says that it holds.
fn count_in(block: &Block) -> u64
    ensures { result ≡ count_in block.now }
{
    u64::from(u16::from_le_bytes([block[0], block[1]]))
}

// The number that a block has.
fn number_in(block: &Block) -> u64
    ensures { result ≡ number_in block.now }
{
    u64::from(u16::from_le_bytes([block[2], block[3]]))
}

// The checksum that a block has. Byte by byte: a block gives its last four as an array only through an `Option`.
fn checksum_in(block: &Block) -> u32
    ensures { result ≡ checksum_in block.now }
{
    u32::from_le_bytes([
        block[CHECKSUM_AT],
        block[CHECKSUM_AT + 1],
        block[CHECKSUM_AT + 2],
        block[CHECKSUM_AT + 3],
    ])
}

// The place of the first byte that is not zero, where not all are.
fn first_used(bytes: &[u8]) -> Option<usize>
    ensures value { MatchOption result (all_zero bytes.now ≡ true) (λ i. (all_zero bytes.now ≡ false) × (zeros_in bytes.now ≡ i)) }
    ensures within { IfSome result (λ i. i < length bytes.now) }
{
    bytes.iter().position(|b| *b != 0)
}

// Whether the fillers of an entry are zero.
fn is_clean(place: &[u8; ENTRY_BYTES]) -> bool
    ensures { result ≡ clean place.now }
{
    place[1] == 0 && place[53..].iter().all(|b| *b == 0)
}

// The first of a block's first `count` entries whose fillers are not zero.
fn first_unclean(block: &Block, count: usize) -> Option<usize>
    requires few { count ≤ 7 }
    ensures { MatchOption result (all_clean count block.now ≡ true)
        (λ s. (all_clean count block.now ≡ false) × (clean_before count block.now ≡ s)) }
{
    let (places, _) = block[PLACES_AT..].as_chunks::<ENTRY_BYTES>();
    places[..count].iter().position(|place| !is_clean(place))
}

// Nothing where a test holds, and otherwise the fault. As `ensure` of `judge`, and by itself: what C hosts are given stands on
// `ledger` and `blocks` alone.
fn ensure(holds: bool, fault: Fault) -> Result<(), Fault>
    ensures { result_err result ≡ cond holds None (Some fault) }
{
    if holds { Ok(()) } else { Err(fault) }
}

// Tests a block at place `number`, when the blocks before it are sound and hold `held` entries.
fn check_block(block: &Block, number: u64, held: u64) -> Result<(), Fault>
    requires small { number < 1142 }
    ensures { result_err result ≡ fault_in number held block.now }
{
    let count = count_in(block);
    ensure(count <= ENTRIES_PER_BLOCK as u64, Fault::Count(count))?;
    ensure(number_in(block) == number, Fault::Number(number_in(block)))?;
    let sum = checksum(&block[..CHECKSUM_AT]);
    let stored = checksum_in(block);
    ensure(sum == stored, Fault::Checksum { sum, stored })?;
    let from = PLACES_AT + ENTRY_BYTES * count as usize;
    if let Some(i) = first_used(&block[from..CHECKSUM_AT]) {
        return Err(Fault::Unused(from + i));
    }
    if let Some(s) = first_unclean(block, count as usize) {
        return Err(Fault::Filler(s));
    }
    ensure(
        count == 0 || held == ENTRIES_PER_BLOCK as u64 * number,
        Fault::Gap(held),
    )
}

// The blocks of some bytes.
fn blocks_of(bytes: &[u8]) -> &[Block]
    ensures value { result.now ≡ first_chunks 512 (blocks_in bytes.now) bytes.now }
    ensures count { length result.now ≡ blocks_in bytes.now }
{
    &bytes.as_chunks::<BLOCK_BYTES>().0[..blocks_in(bytes.len())]
}

/// How many leading blocks of some bytes are sound, and how many entries they hold.
///
/// Of the image of a list it finds every block and every entry; and the blocks that it finds sound are the image of the
/// entries that it finds.
// A loop: a `try_fold` would hand the sums out through its error.
pub fn inspect(bytes: &[u8]) -> Found
    ensures value { result ≡ found bytes.now }
    ensures all { FindsAll bytes.now result }
    ensures only { FindsOnly bytes.now result }
{
    let mut front = Found::default();
    for block in blocks_of(bytes) {
        if check_block(block, front.blocks, front.entries).is_err() {
            break;
        }
        front.blocks += 1;
        front.entries += count_in(block);
    }
    front
}

/// The test that the first unsound block fails, or nothing when all blocks are sound.
pub fn first_fault(bytes: &[u8]) -> Option<Fault>
    ensures { result ≡ first_fault bytes.now }
{
    let sound = inspect(bytes);
    let block = blocks_of(bytes).get(sound.blocks as usize)?;
    check_block(block, sound.blocks, sound.entries).err()
}

/// Entry `i`, from 0, of those that the leading sound blocks of some bytes hold, or nothing past the last.
// Each call inspects anew, since it answers for bytes of which it knows nothing.
pub fn read_entry(bytes: &[u8], i: usize) -> Option<Entry>
    ensures value { result ≡ slice_get (sound_entries bytes.now) i }
    ensures round { (rows : List Row) → Image bytes.now rows → result ≡ slice_get rows i }
{
    // An `if`, so that the place is known where the entry is read; the closure of a `then` would have to be told.
    if (i as u64) < inspect(bytes).entries {
        Some(entry_at(bytes, i))
    } else {
        None
    }
}
