// One block, and several of them in some memory.
// Each `as` is proved to keep its value; a `try_from` would have a case that never comes.
ghost use Rattle.std.specs.Prelude.{◌≡◌, ℕ, ◌+◌, ◌*◌, ◌/◌, ◌<◌, ◌≤◌, List, [], ◌∷◌, ◌++◌, length, take, drop};
ghost use Rattle.ledger.specs.declared.row.Entry.{Entry as Row};
ghost use Rattle.blocks.specs.Bytes.{entry_of};
ghost use Rattle.blocks.specs.Image.{weighed, body, sealed, block, block_at, written, place, slot};

use crate::codec::{entry_bytes, entry_of};
use crate::sizes::{
    BLOCK_BYTES, CHECKSUM_AT, ENTRIES_PER_BLOCK, ENTRY_BYTES, PLACES_AT, PLACES_BYTES,
};
use ledger::Entry;

/// Inner: the sum of byte × (place + 1) over the first 508 bytes of a block.
// `bytes` is a slice for the reason that `seal` gives.
pub fn checksum(bytes: &[u8]) -> u32
    requires { length bytes.now ≡ 508 }
    ensures { result ≡ weighed 1 bytes.now }
{
    // A loop: the sum is bounded by how many bytes came before, which the closure of a chain does not know.
    let mut sum: u32 = 0;
    for (i, b) in bytes.iter().enumerate() {
        sum += u32::from(*b) * (i as u32 + 1);
    }
    sum
}

// Lays an entry at its place. `places` is a slice, so that an entry is laid where it stands in a block.
pub(crate) fn lay(places: &mut [u8], at: usize, e: Entry)
    requires long { length places.old ≡ 504 }
    requires within { at < 7 }
    ensures { (es : List Row) → places.old ≡ body es → length es ≡ at → places.new ≡ body (es ++ e ∷ []) }
{
    let bytes = entry_bytes(e);
    // By range: of what is written through `as_chunks_mut` the library promises nothing to the array.
    let from = at * ENTRY_BYTES;
    places[from..from + ENTRY_BYTES].copy_from_slice(&bytes);
}

// Renews a block's count, its number, of which the two low bytes are written, and its checksum.
// `all` is a slice: some memory lends a part of itself as an array only through an `Option`, with a case that never comes.
fn seal(all: &mut [u8], count: u8, number: usize)
    requires { length all.old ≡ 512 }
    ensures { all.new ≡ sealed count number (take 504 (drop 4 all.old)) }
{
    let n = number.to_le_bytes();
    let head = [count, 0, n[0], n[1]];
    all[0..PLACES_AT].copy_from_slice(&head);
    let sum = checksum(&all[0..CHECKSUM_AT]).to_le_bytes();
    all[CHECKSUM_AT..BLOCK_BYTES].copy_from_slice(&sum);
}

// Adds an entry to the bytes of block `k`, which has `at` of them. `all` is a slice for the reason that `seal` gives.
pub(crate) fn add(all: &mut [u8], k: usize, at: usize, e: Entry)
    requires size { length all.old ≡ 512 }
    requires within { at < 7 }
    ensures { (es : List Row) → take 504 (drop 4 all.old) ≡ body es → length es ≡ at → all.new ≡ block k (es ++ e ∷ []) }
{
    lay(&mut all[PLACES_AT..CHECKSUM_AT], at, e);
    seal(all, at as u8 + 1, k);
}

// Makes a whole block of its count, its number and its places. `all` is a slice for the reason that `seal` gives.
fn fill(all: &mut [u8], count: u8, number: usize, places: &[u8; PLACES_BYTES])
    requires { length all.old ≡ 512 }
    ensures { all.new ≡ sealed count number places.now }
{
    all[PLACES_AT..CHECKSUM_AT].copy_from_slice(places);
    seal(all, count, number);
}

// Writes block `k`. `append` works out the same range: a function for it would need a clause as long as these two lines.
pub(crate) fn write(bytes: &mut [u8], k: usize, count: usize, places: &[u8; PLACES_BYTES])
    requires room { 512 * k + 512 ≤ length bytes.old }
    requires small { count ≤ 7 }
    ensures { bytes.new ≡ written k (sealed count k places.now) bytes.old }
{
    let from = k * BLOCK_BYTES;
    let to = from + BLOCK_BYTES;
    fill(&mut bytes[from..to], count as u8, k, places);
}

// Makes the blocks from one on empty ones, up to the last whole one.
// An index counts here: of what is written through `chunks_exact_mut` the library promises nothing to the slice.
pub(crate) fn clear_all(bytes: &mut [u8], first: usize)
    ensures cleared { (k : ℕ) → first ≤ k → k < length bytes.old / 512 → block_at k bytes.new ≡ block k [] }
    ensures before { (k : ℕ) → k < first → block_at k bytes.new ≡ block_at k bytes.old }
{
    for k in first..bytes.len() / BLOCK_BYTES {
        write(bytes, k, 0, &[0; PLACES_BYTES]);
    }
}

/// Inner: the entry at place `i`, the places counted through all blocks.
pub fn entry_at(bytes: &[u8], i: usize) -> Entry
    requires { place i + 72 ≤ length bytes.now }
    ensures { result ≡ entry_of (slot bytes.now i) }
{
    // The place is worked out: the bytes may end within a block, and chunks of them then lack it.
    let from = i / ENTRIES_PER_BLOCK * BLOCK_BYTES
        + (PLACES_AT + i % ENTRIES_PER_BLOCK * ENTRY_BYTES);
    let to = from + ENTRY_BYTES;
    entry_of(&bytes[from..to])
}
