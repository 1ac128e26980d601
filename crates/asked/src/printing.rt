// A ledger that prints what it is asked, and asks it of the ledger in it.
use ledger::{Entry, Held, Ledger, OrderNumber, Pick};

/// A ledger of the same meaning as the one in it. An entry that is gone to is not told of: where its entries are gone through is.
// What a print answers is let go: a ledger's calls have no way to tell of it.
#[derive(Drop)]
pub struct Printing<'a, L: Ledger> {
    rt: &'a HostRuntime,
    ledger: L,
}

impl<'a, L: Ledger> Printing<'a, L> {
    pub fn of(rt: &'a HostRuntime, ledger: L) -> Printing<'a, L> {
        Printing { rt, ledger }
    }
}

impl<'a, L: Ledger> Ledger for Printing<'a, L> {
    ghost rows = { λ x. L.rows x.ledger };

    ghost room = { λ x. L.room x.ledger };

    ghost lent = { λ x. L.lent x.ledger };

    ghost behind = { λ x. L.behind x.ledger };

    fn count(&self) -> usize {
        let n = self.ledger.count();
        let _ = println!(self.rt; "  count: {n}");
        n
    }

    fn capacity(&self) -> usize {
        let n = self.ledger.capacity();
        let _ = println!(self.rt; "  capacity: {n}");
        n
    }

    fn read(&self, i: usize) -> Option<Entry> {
        let _ = println!(self.rt; "  read {i}");
        self.ledger.read(i)
    }

    fn first(&self) -> usize {
        let _ = println!(self.rt; "  gone through");
        self.ledger.first()
    }

    fn step(&self, place: usize) -> Option<(Entry, usize)> {
        self.ledger.step(place)
    }

    fn empty(&mut self) {
        let _ = println!(self.rt; "  emptied");
        self.ledger.empty();
    }

    fn append(&mut self, e: Entry) -> bool {
        let quantity = e.quantity;
        let price = e.price;
        let _ = println!(self.rt; "  append: {quantity} at {price}");
        self.ledger.append(e)
    }

    fn remove(&mut self, group: u8, kind: u8) -> usize {
        let n = self.ledger.remove(group, kind);
        let _ = println!(self.rt; "  remove {group} {kind}: {n}");
        n
    }

    fn known_order(&self, order: OrderNumber) -> Option<bool> {
        let _ = println!(self.rt; "  is an order number known?");
        self.ledger.known_order(order)
    }

    fn known_held(&self, pick: Pick) -> Option<Held> {
        let group = pick.group;
        let kind = pick.kind;
        let _ = println!(self.rt; "  is known what {group} {kind} holds?");
        self.ledger.known_held(pick)
    }
}
