// The calls of a ledger in blocks.
ghost use Rattle.std.specs.Prelude.{◌≡◌, ◌-◌, [], ◌∷◌, length, filter, nat_lt};
ghost use Rattle.ledger.specs.Rows.{appended, others};
ghost use Rattle.blocks.specs.Filled.{rows, room, lent, lent_by, bytes_of, behind};
ghost use Rattle.blocks.specs.Image.{filled, blocks_in};

use crate::block::{add, clear_all, entry_at};
use crate::filled::{Blocks, blocks_in};
use crate::filling::take_out;
use crate::sizes::{BLOCK_BYTES, ENTRIES_PER_BLOCK};
use ledger::{Entry, Ledger};

impl<'a> Blocks<'a> {
    /// An empty ledger over `bytes`. Its blocks are written at once.
    pub fn new(bytes: &'a mut [u8]) -> Blocks<'a>
        ensures list { rows result ≡ [] }
        ensures blocks { result.blocks ≡ blocks_in bytes.old }
        ensures memory { result.bytes.now ≡ filled (blocks_in bytes.old) [] bytes.old }
        ensures lender { lent result ≡ lent_by bytes.entry (blocks_in bytes.old) }
    {
        let blocks = blocks_in(bytes.len());
        clear_all(&mut bytes[..blocks * BLOCK_BYTES], 0);
        Blocks {
            bytes,
            blocks,
            len: 0,
        }
    }

    /// All the bytes that were lent, those past the last block too.
    pub fn bytes(&self) -> &[u8]
        ensures { result.now ≡ self.now.bytes.now }
    {
        self.bytes
    }

    /// All the bytes that were lent.
    pub fn into_bytes(self) -> &'a mut [u8]
        ensures memory { let t = self.entry in result.now ≡ bytes_of (rows t) (room t) (lent t) }
        ensures lender { (lent self.entry).owners ≡ result.ghost_name ∷ [] }
    {
        let Blocks { bytes, .. } = self;
        bytes
    }
}

impl<'a> Ledger for Blocks<'a> {
    ghost rows = { rows };

    ghost room = { room };

    ghost lent = { lent };

    ghost behind = { behind };

    fn count(&self) -> usize {
        self.len
    }

    fn capacity(&self) -> usize {
        ENTRIES_PER_BLOCK * self.blocks
    }

    fn read(&self, i: usize) -> Option<Entry> {
        // An `if`, so that the place is known where the entry is read; the closure of a `then` would have to be told.
        if i < self.len {
            Some(entry_at(self.bytes, i))
        } else {
            None
        }
    }

    fn first(&self) -> usize {
        0
    }

    fn step(&self, place: usize) -> Option<(Entry, usize)> {
        match self.read(place) {
            Some(entry) => Some((entry, place + 1)),
            None => None,
        }
    }

    fn empty(&mut self)
        ensures list { rows self.new ≡ [] }
        ensures same { room self.new ≡ room self.old }
        ensures kept { lent self.new ≡ lent self.old }
        ensures memory { self.new.bytes.now ≡ filled self.old.blocks [] self.old.bytes.now }
    {
        clear_all(&mut self.bytes[..self.blocks * BLOCK_BYTES], 0);
        self.len = 0;
    }

    fn append(&mut self, e: Entry) -> bool
        ensures answer { result ≡ nat_lt (length (rows self.old)) (room self.old) }
        ensures list { rows self.new ≡ appended result (rows self.old) e }
        ensures same { room self.new ≡ room self.old }
        ensures kept { lent self.new ≡ lent self.old }
        ensures memory { self.new.bytes.now ≡ filled self.old.blocks (appended result (rows self.old) e) self.old.bytes.now }
    {
        let at = self.len;
        if at >= self.capacity() {
            return false;
        }
        let block = at / ENTRIES_PER_BLOCK;
        let place = at % ENTRIES_PER_BLOCK;
        let from = block * BLOCK_BYTES;
        let to = from + BLOCK_BYTES;
        add(&mut self.bytes[from..to], block, place, e);
        self.len = at + 1;
        true
    }

    fn remove(&mut self, group: u8, kind: u8) -> usize
        ensures list { rows self.new ≡ filter (others group kind) (rows self.old) }
        ensures answer { result ≡ length (rows self.old) - length (rows self.new) }
        ensures same { room self.new ≡ room self.old }
        ensures kept { lent self.new ≡ lent self.old }
        ensures memory { self.new.bytes.now ≡ filled self.old.blocks (filter (others group kind) (rows self.old)) self.old.bytes.now }
    {
        let len = self.len;
        let end = self.blocks * BLOCK_BYTES;
        let left = take_out(&mut self.bytes[..end], len, group, kind);
        self.len = left;
        len - left
    }
}
