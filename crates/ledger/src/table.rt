// A ledger over entries that the caller lends.
ghost use Rattle.std.specs.Prelude.{◌≤◌, length};

mod calls;

use crate::row::Entry;

/// A ledger in a slice of entries: the first `len` of them, in order. Its capacity is the slice's length. The memory is lent, so
/// the slice and how much of it is used stand beside one another.
#[derive(Drop)]
pub struct Table<'a> {
    entries: &'a mut [Entry],
    len: usize,
    ghost fits: { len ≤ length entries.now },
}
