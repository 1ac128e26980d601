// A ledger with an index of its rows.
ghost use Rattle.std.specs.Prelude.{◌≡◌, ◌-◌, ◌*◌, ◌<◌, ◌≤◌, true, false, [], length, filter, nat_lt, IfOk, IfErr};
ghost use Rattle.std.specs.HashMap.{spare};
ghost use Rattle.ledger.specs.Rows.{appended, others, has_order, held_for};
ghost use Rattle.indexed.specs.Index.{section_count, answer_if, covers, is_known_with, is_known_without, Tells};

use crate::index::Index;
use ledger::{Entry, Held, Ledger, OrderNumber, Pick};
use std::alloc::{AllocError, Global};

/// A ledger of the same meaning as the one in it, that knows by itself which order numbers stand and what its entries hold.
///
/// Its index is of the groups below a number, of the kinds 0 and 2 and the order types 0 to 6. An entry that the index cannot take
/// turns it off: one outside of these, one whose order number stands in another group or kind, one that a sum of 128 bits or the
/// memory cannot hold. From then on nothing is known, and the entries are gone through, until the ledger is emptied.
// An order number that is removed stays in the index under a past epoch, so that a removal does not go through them.
#[derive(Drop)]
pub struct Indexed<L: Ledger> {
    ledger: L,
    index: Index,
    ghost tells: { Tells index (L.rows ledger) },
}

impl<L: Ledger> Indexed<L> {
    /// Empties the ledger and puts an index of the groups below a number over it. Without the memory for that, the ledger comes back
    /// as it was.
    pub fn new(alloc: Global, ledger: L, groups: usize) -> Result<Indexed<L>, (AllocError, L)>
        ensures rows { IfOk result (λ x. L.rows x.ledger ≡ []) }
        ensures room { IfOk result (λ x. L.room x.ledger ≡ L.room ledger) }
        ensures lent { IfOk result (λ x. L.lent x.ledger ≡ L.lent ledger) }
        ensures known { IfOk result (λ x. x.index.known ≡ true) }
        ensures sections { IfOk result (λ x. section_count x.index ≡ 2 * groups) }
        ensures orders { IfOk result (λ x. L.room ledger ≤ spare x.index.orders) }
        ensures refused { IfErr result (λ back. back.1 ≡ ledger) }
    {
        match Index::new(alloc, groups, ledger.capacity()) {
            Ok(index) => {
                let mut ledger = ledger;
                ledger.empty();
                Ok(Indexed { ledger, index })
            }
            Err(error) => Err((error, ledger)),
        }
    }

    /// The ledger under the index, to look at.
    pub fn ledger(&self) -> &L
        ensures { result.now ≡ self.now.ledger }
    {
        &self.ledger
    }

    /// The ledger, without its index.
    pub fn close(self) -> L
        ensures { result ≡ self.ledger }
    {
        self.ledger
    }
}

impl<L: Ledger> Ledger for Indexed<L> {
    ghost rows = { λ x. L.rows x.ledger };

    ghost room = { λ x. L.room x.ledger };

    ghost lent = { λ x. L.lent x.ledger };

    ghost behind = { λ x. L.behind x.ledger };

    fn count(&self) -> usize {
        self.ledger.count()
    }

    fn capacity(&self) -> usize {
        self.ledger.capacity()
    }

    fn read(&self, i: usize) -> Option<Entry> {
        self.ledger.read(i)
    }

    fn first(&self) -> usize {
        self.ledger.first()
    }

    fn step(&self, place: usize) -> Option<(Entry, usize)> {
        self.ledger.step(place)
    }

    fn empty(&mut self)
        ensures list { L.rows self.new.ledger ≡ [] }
        ensures same { L.room self.new.ledger ≡ L.room self.old.ledger }
        ensures kept { L.lent self.new.ledger ≡ L.lent self.old.ledger }
        ensures known { self.new.index.known ≡ true }
        ensures sections { section_count self.new.index ≡ section_count self.old.index }
    {
        self.ledger.empty();
        self.index.clear();
    }

    fn append(&mut self, e: Entry) -> bool
        ensures answer { result ≡ nat_lt (length (L.rows self.old.ledger)) (L.room self.old.ledger) }
        ensures list { L.rows self.new.ledger ≡ appended result (L.rows self.old.ledger) e }
        ensures same { L.room self.new.ledger ≡ L.room self.old.ledger }
        ensures kept { L.lent self.new.ledger ≡ L.lent self.old.ledger }
        ensures known { result ≡ true → 0 < spare self.old.index.orders
            → self.new.index.known ≡ is_known_with self.old.index (L.rows self.old.ledger) e }
        ensures refused { result ≡ false → self.new.index ≡ self.old.index }
        ensures sections { section_count self.new.index ≡ section_count self.old.index }
    {
        let taken = self.ledger.append(e);
        if taken {
            self.index.add(&e);
        }
        taken
    }

    fn remove(&mut self, group: u8, kind: u8) -> usize
        ensures list { L.rows self.new.ledger ≡ filter (others group kind) (L.rows self.old.ledger) }
        ensures answer { result ≡ length (L.rows self.old.ledger) - length (L.rows self.new.ledger) }
        ensures same { L.room self.new.ledger ≡ L.room self.old.ledger }
        ensures kept { L.lent self.new.ledger ≡ L.lent self.old.ledger }
        ensures known { self.new.index.known ≡ is_known_without self.old.index group kind }
        ensures sections { section_count self.new.index ≡ section_count self.old.index }
    {
        self.index.remove(group, kind);
        self.ledger.remove(group, kind)
    }

    fn known_order(&self, order: OrderNumber) -> Option<bool>
        ensures { result ≡ answer_if self.now.index.known (has_order order (L.rows self.now.ledger)) }
    {
        self.index.has_order(order)
    }

    fn known_held(&self, pick: Pick) -> Option<Held>
        ensures { result ≡ answer_if (covers self.now.index pick) (held_for pick (L.rows self.now.ledger)) }
    {
        self.index.held(pick)
    }
}

#[cfg(test)]
mod tests;
