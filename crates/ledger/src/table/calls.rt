// The calls of a table.
ghost use Rattle.std.specs.Prelude.{◌≡◌, ◌-◌, ◌≤◌, [], ◌∷◌, length, take, drop, filter, nat_lt};
ghost use Rattle.ledger.specs.Rows.{appended, others};
ghost use Rattle.ledger.specs.Tables.{rows, room, lent, behind};

use crate::row::Entry;
use crate::table::Table;
use crate::what::Ledger;

impl<'a> Table<'a> {
    /// An empty ledger over `entries`, which are left as they are until something is appended.
    pub fn new(entries: &'a mut [Entry]) -> Table<'a>
        ensures list { rows result ≡ [] }
        ensures memory { result.entries.now ≡ entries.old }
        ensures lender { result.entries.ghost_name ≡ entries.entry.ghost_name }
    {
        Table { entries, len: 0 }
    }

    /// The entries that were lent: the ledger's in the first places, and past them what they were.
    pub fn into_entries(self) -> &'a mut [Entry]
        ensures list { take (length (rows self.entry)) result.now ≡ rows self.entry }
        ensures size { length result.now ≡ room self.entry }
        ensures memory { result.now ≡ self.entry.entries.now }
        ensures lender { (lent self.entry).owners ≡ result.ghost_name ∷ [] }
    {
        let Table { entries, .. } = self;
        entries
    }
}

// Moves the entries that are not of this group and kind to the front, in order, and counts them.
// An index counts here, since a slice has no `retain`. Group and kind are plain numbers, as entries hold them.
fn close_up(entries: &mut [Entry], group: u8, kind: u8) -> usize
    ensures list { take result entries.new ≡ filter (others group kind) entries.old }
    ensures bound { result ≤ length entries.old }
    ensures rest { drop result entries.new ≡ drop result entries.old }
{
    let mut k = 0;
    for i in 0..entries.len() {
        let e = entries[i];
        if !e.is_of(group, kind) {
            entries[k] = e;
            k += 1;
        }
    }
    k
}

/// Places past the last entry are left as they were, in every call.
impl<'a> Ledger for Table<'a> {
    ghost rows = { rows };

    ghost room = { room };

    ghost lent = { lent };

    ghost behind = { behind };

    fn count(&self) -> usize {
        self.len
    }

    fn capacity(&self) -> usize {
        self.entries.len()
    }

    fn read(&self, i: usize) -> Option<Entry> {
        self.entries[..self.len].get(i).copied()
    }

    fn first(&self) -> usize {
        0
    }

    fn step(&self, place: usize) -> Option<(Entry, usize)> {
        match self.read(place) {
            Some(entry) => Some((entry, place + 1)),
            None => None,
        }
    }

    fn empty(&mut self)
        ensures list { rows self.new ≡ [] }
        ensures same { room self.new ≡ room self.old }
        ensures kept { lent self.new ≡ lent self.old }
        ensures memory { self.new.entries.now ≡ self.old.entries.now }
    {
        self.len = 0;
    }

    fn append(&mut self, e: Entry) -> bool
        ensures answer { result ≡ nat_lt (length (rows self.old)) (room self.old) }
        ensures list { rows self.new ≡ appended result (rows self.old) e }
        ensures same { room self.new ≡ room self.old }
        ensures kept { lent self.new ≡ lent self.old }
        ensures rest { drop self.new.len self.new.entries.now ≡ drop self.new.len self.old.entries.now }
    {
        if self.len >= self.entries.len() {
            return false;
        }
        self.entries[self.len] = e;
        self.len += 1;
        true
    }

    fn remove(&mut self, group: u8, kind: u8) -> usize
        ensures list { rows self.new ≡ filter (others group kind) (rows self.old) }
        ensures answer { result ≡ length (rows self.old) - length (rows self.new) }
        ensures same { room self.new ≡ room self.old }
        ensures kept { lent self.new ≡ lent self.old }
        ensures rest { drop self.new.len self.new.entries.now ≡ drop self.new.len self.old.entries.now }
    {
        let n = self.len;
        let entries = &mut self.entries;
        self.len = close_up(&mut entries[0..n], group, kind);
        n - self.len
    }
}
