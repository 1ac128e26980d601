// What a ledger means, and what it can be asked.
ghost use Rattle.std.specs.Prelude.{◌≡◌, ℕ, ◌+◌, ◌-◌, ◌*◌, ◌^◌, ◌<◌, List, [], ◌∷◌, length, filter, nat_lt, cond, IfSome, MatchOption};
ghost use Rattle.std.specs.Iterator.{YieldsFirst, item_count};
ghost use Rattle.std.specs.List.{slice_get};
ghost use Rattle.ledger.specs.Rows.{appended, others, of_order, has_order, picked, held_by, held_with, held_for};
ghost use Rattle.ledger.specs.Coming.{to_come};
ghost use Rattle.ledger.specs.Lent.{Lent};
ghost use Rattle.ledger.specs.declared.row.Entry.{Entry};

use crate::row::{Entry, Held, OrderNumber, Pick};

// Whether an entry has an order number.
fn has_number(e: &Entry, order: OrderNumber) -> bool
    ensures { result ≡ of_order order e.now }
{
    e.order == order
}

impl Held {
    // What is held with one entry more, where that is one of some.
    fn with(self, pick: Pick, e: &Entry) -> Held
        requires quantity { self.quantity < 2 ^ 96 }
        requires amount { self.amount < 2 ^ 128 - 2 ^ 64 }
        ensures value { result ≡ cond (picked pick.group pick.kind pick.order_type e.now) (held_with self e.now) self }
        ensures bound { (result.quantity < self.quantity + 2 ^ 32) × (result.amount < self.amount + 2 ^ 64) }
    {
        if !pick.takes(e) {
            return self;
        }
        let quantity = u128::from(e.quantity);
        let price = u128::from(e.price);
        Held {
            quantity: self.quantity + quantity,
            amount: self.amount + quantity * price,
        }
    }
}

/// A list of entries and a capacity that never changes. Groups, kinds and order types are numbers, as in the entries.
///
/// A ledger over lent memory says what of that no call ever changes: `lent`. It may keep by itself what it is asked about its entries,
/// `known_order` and `known_held`; what it does not know is answered by going through them.
// Each call that changes says by itself that the capacity stays (`same`) and what was lent (`kept`): a clause of a trait is a call's own.
pub trait Ledger {
    ghost rows: { Self → List Entry };

    ghost room: { Self → ℕ };

    ghost lent: { Self → Lent };

    // The rows from a place on. Places are the ledger's own numbers.
    ghost behind: { Self → ℕ → List Entry };

    /// How many entries there are.
    fn count(&self) -> usize
        ensures { result ≡ length (rows self.now) };

    /// How many entries there can be.
    fn capacity(&self) -> usize
        ensures { result ≡ room self.now };

    /// Entry `i`, from 0, or nothing past the end.
    fn read(&self, i: usize) -> Option<Entry>
        ensures { result ≡ slice_get (rows self.now) i };

    /// The place where going through the entries begins.
    fn first(&self) -> usize
        ensures { behind self.now result ≡ rows self.now };

    /// The entry at a place, and the place behind it; nothing behind the last.
    fn step(&self, place: usize) -> Option<(Entry, usize)>
        ensures { MatchOption result (behind self.now place ≡ []) (λ r. behind self.now place ≡ r.0 ∷ behind self.now r.1) };

    /// Takes out every entry.
    fn empty(&mut self)
        ensures list { rows self.new ≡ [] }
        ensures same { room self.new ≡ room self.old }
        ensures kept { lent self.new ≡ lent self.old };

    /// Makes the entry the last; refuses, and changes nothing, exactly when the list is as long as the capacity.
    // A `bool`, as a set's `insert`: there is one way to be refused.
    fn append(&mut self, e: Entry) -> bool
        ensures answer { result ≡ nat_lt (length (rows self.old)) (room self.old) }
        ensures list { rows self.new ≡ appended result (rows self.old) e }
        ensures same { room self.new ≡ room self.old }
        ensures kept { lent self.new ≡ lent self.old };

    /// Takes out every entry of a group and kind, leaves the others in order, and answers how many went.
    // Two plain numbers, as entries hold them: ledgers know neither groups nor kinds.
    fn remove(&mut self, group: u8, kind: u8) -> usize
        ensures list { rows self.new ≡ filter (others group kind) (rows self.old) }
        ensures answer { result ≡ length (rows self.old) - length (rows self.new) }
        ensures same { room self.new ≡ room self.old }
        ensures kept { lent self.new ≡ lent self.old };

    /// Whether an order number stands among the entries, where the ledger knows it by itself.
    fn known_order(&self, order: OrderNumber) -> Option<bool>
        ensures { IfSome result (λ known. known ≡ has_order order (rows self.now)) }
    {
        let _ = order;
        None
    }

    /// What some of the entries hold, where the ledger knows it by itself.
    fn known_held(&self, pick: Pick) -> Option<Held>
        ensures { IfSome result (λ known. known ≡ held_for pick (rows self.now)) }
    {
        let _ = pick;
        None
    }

    /// The entries, in order.
    final fn entries(&self) -> Entries<'_, Self>
    where
        Self: Sized,
        ensures list { to_come behind result ≡ rows self.now }
    {
        Entries {
            ledger: self,
            place: self.first(),
        }
    }

    /// Whether an order number stands among the entries.
    // A loop: a `dyn Ledger` has no `entries`.
    fn has_order(&self, order: OrderNumber) -> bool
        ensures { result ≡ has_order order (rows self.now) }
    {
        if let Some(known) = self.known_order(order) {
            return known;
        }
        for i in 0..self.count() {
            if let Some(e) = self.read(i) {
                if has_number(&e, order) {
                    return true;
                }
            }
        }
        false
    }

    /// What three choices of the entries hold, each. They are gone through once, and not at all where the ledger knows all three.
    final fn survey(&self, picks: (Pick, Pick, Pick)) -> (Held, Held, Held)
    where
        Self: Sized,
        ensures { result ≡ (held_for picks.0 (rows self.now), held_for picks.1 (rows self.now), held_for picks.2 (rows self.now)) }
    {
        let known = (
            self.known_held(picks.0),
            self.known_held(picks.1),
            self.known_held(picks.2),
        );
        if let (Some(first), Some(second), Some(third)) = known {
            return (first, second, third);
        }
        let mut first = Held::default();
        let mut second = Held::default();
        let mut third = Held::default();
        if self.count() == 0 {
            return (first, second, third);
        }
        // A loop: a `fold` would not know how many entries came before, and so not that the sums fit.
        for e in self.entries() {
            first = first.with(picks.0, &e);
            second = second.with(picks.1, &e);
            third = third.with(picks.2, &e);
        }
        (first, second, third)
    }
}

/// The entries of a ledger that are still to come, in order.
#[derive(Drop)]
pub struct Entries<'a, L> {
    ledger: &'a L,
    place: usize,
}

impl<'a, L: Ledger> Iterator for Entries<'a, L> {
    type Item = Entry;

    ghost next_gives = { YieldsFirst (to_come L.behind) };

    ghost remaining = { item_count (to_come L.behind) };

    fn next(&mut self) -> Option<Entry> {
        let (e, behind) = self.ledger.step(self.place)?;
        self.place = behind;
        Some(e)
    }
}
