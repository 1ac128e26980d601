// Entries that stay when others are taken out, laid again from the front.
ghost use Rattle.std.specs.Prelude.{◌≡◌, ℕ, ◌+◌, ◌*◌, ◌/◌, ◌<◌, ◌≤◌, List, [], ◌∷◌, ◌++◌, length, filter, replicate};
ghost use Rattle.ledger.specs.declared.row.Entry.{Entry as Row};
ghost use Rattle.ledger.specs.Rows.{others};
ghost use Rattle.blocks.specs.Image.{Holds, rows_in};
ghost use Rattle.blocks.specs.Sifting.{Sifting};

use crate::block::{clear_all, entry_at, lay, write};
use crate::sizes::{BLOCK_BYTES, ENTRIES_PER_BLOCK, PLACES_BYTES};
use ledger::Entry;

// The block that is being filled: its places, how many of them are taken, and its number.
// Bytes with a count and no list of entries: the places are written to the block as they are.
#[derive(Drop)]
struct Filling {
    places: [u8; PLACES_BYTES],
    at: usize,
    block: usize,
    ghost few: { at < 7 },
}

impl Filling {
    // The first block, with no place taken.
    fn new() -> Self
        ensures places { result.places ≡ replicate 504 0 }
        ensures at { result.at ≡ 0 }
        ensures block { result.block ≡ 0 }
    {
        Filling {
            places: [0; PLACES_BYTES],
            at: 0,
            block: 0,
        }
    }

    // Lays an entry that stays; the block, when it is full, is written, and the next one begins.
    fn put(&mut self, bytes: &mut [u8], e: Entry)
        requires { 512 * self.old.block + 512 ≤ length bytes.old }
        ensures { (kept rows : List Row) (n : ℕ) → Sifting kept rows n bytes.old self.old.places
            self.old.block self.old.at → Sifting (kept ++ e ∷ []) rows n bytes.new self.new.places
            self.new.block self.new.at }
    {
        lay(&mut self.places, self.at, e);
        self.at += 1;
        if self.at == ENTRIES_PER_BLOCK {
            write(bytes, self.block, self.at, &self.places);
            self.places = [0; PLACES_BYTES];
            self.at = 0;
            self.block += 1;
        }
    }

    // Writes the block that was begun, and empty ones after it up to the last whole one. Answers how many entries stay.
    fn finish(self, bytes: &mut [u8]) -> usize
        requires { self.block ≤ length bytes.old / 512 }
        ensures held { let n = length bytes.old / 512 in (kept rows : List Row) → Sifting kept rows
            n bytes.old self.places self.block self.at → length kept ≤ 7 * n → Holds n kept
            bytes.new }
        ensures count { result ≡ 7 * self.block + self.at }
    {
        if self.block < bytes.len() / BLOCK_BYTES {
            write(bytes, self.block, self.at, &self.places);
            clear_all(bytes, self.block + 1);
        }
        ENTRIES_PER_BLOCK * self.block + self.at
    }
}

// Takes out the entries of a group and kind, and answers how many are left.
// The entries are read by an index, since the blocks before them are written meanwhile. Plain numbers, as in entries; the count stands
// beside the lent bytes, as in `Blocks`.
pub(crate) fn take_out(bytes: &mut [u8], len: usize, group: u8, kind: u8) -> usize
    requires fits { len ≤ 7 * (length bytes.old / 512) }
    requires held { Holds (length bytes.old / 512) (rows_in len bytes.old) bytes.old }
    ensures held { Holds (length bytes.old / 512) (filter (others group kind) (rows_in len bytes.old)) bytes.new }
    ensures count { result ≡ length (filter (others group kind) (rows_in len bytes.old)) }
{
    let mut filling = Filling::new();
    for i in 0..len {
        let e = entry_at(bytes, i);
        if !e.is_of(group, kind) {
            filling.put(bytes, e);
        }
    }
    filling.finish(bytes)
}
