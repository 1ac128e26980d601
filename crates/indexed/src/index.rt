// What is kept of a ledger's rows: which order numbers stand, and what each group and kind holds.
ghost use Rattle.std.specs.Prelude.{◌≡◌, ℕ, ◌+◌, ◌*◌, ◌^◌, ◌<◌, ◌≤◌, ◌&&◌, ◌∷◌, ◌++◌, List, [], true, cond, nat_lt, length, filter, is_some, IfOk, IfSome};
ghost use Rattle.std.specs.HashMap.{spare};
ghost use Rattle.ledger.specs.Rows.{others, has_order, held_for, held_with};
ghost use Rattle.ledger.specs.declared.row.Entry.{Entry as Row};
ghost use Rattle.indexed.specs.Index.{section_number, empty_section, section_held, has_type, fits, has_room, is_present, stands, is_free, section_count, answer_if, covers, takes, is_known_with, is_known_without, AddsTo, Marks, Holds, Tells};

use ledger::{Entry, Held, OrderNumber, Pick};
use std::alloc::{AllocError, Global};
use std::collections::HashMap;

// Order types are numbers below this.
const ORDER_TYPES: usize = 7;

// What the rows of a group and kind hold, all and by order type. The epoch rises with each removal.
#[derive(Clone, Copy, PartialEq, Eq, Debug)]
pub struct Section {
    pub epoch: u64,
    pub all: Held,
    pub by_type: [Held; ORDER_TYPES],
}

// The section that an order number was last entered in, and its epoch then.
#[derive(Clone, Copy, PartialEq, Eq, Debug)]
pub struct Mark {
    pub section: usize,
    pub epoch: u64,
}

// Kinds are 0 and 2, as entries hold them.
fn section_number(group: u8, kind: u8) -> Option<usize>
    ensures { result ≡ section_number group kind }
{
    match kind {
        0 => Some(2 * usize::from(group)),
        2 => Some(2 * usize::from(group) + 1),
        _ => None,
    }
}

// What is held with one entry more, where the sums fit.
fn held_with(held: Held, e: &Entry) -> Option<Held>
    ensures { result ≡ cond (fits held e.now) (Some (held_with held e.now)) None }
{
    let amount = u64::from(e.quantity) * u64::from(e.price);
    Some(Held {
        quantity: held.quantity.checked_add(u128::from(e.quantity))?,
        amount: held.amount.checked_add(u128::from(amount))?,
    })
}

impl Section {
    fn empty(epoch: u64) -> Section
        ensures { result ≡ empty_section epoch }
    {
        Section {
            epoch,
            all: Held::default(),
            by_type: [Held::default(); ORDER_TYPES],
        }
    }

    // Refuses where there is no further epoch.
    fn clear(&mut self) -> bool
        ensures answer { result ≡ nat_lt (self.old.epoch + 1) (2 ^ 64) }
        ensures section { self.new ≡ cond result (empty_section (self.old.epoch + 1)) self.old }
    {
        match self.epoch.checked_add(1) {
            Some(epoch) => {
                *self = Section::empty(epoch);
                true
            }
            None => false,
        }
    }

    fn held(&self, order_type: Option<u8>) -> Option<Held>
        ensures answer { is_some result ≡ has_type order_type }
        ensures held { result ≡ section_held self.now order_type }
    {
        match order_type {
            None => Some(self.all),
            Some(t) => self.by_type.get(usize::from(t)).copied(),
        }
    }

    // Nothing where a sum does not fit or there is no such order type.
    fn add(&mut self, e: &Entry) -> Option<()>
        ensures answer { is_some result ≡ has_room self.old e.now }
        ensures adds { IfSome result (λ _. AddsTo e.now self.old self.new) }
        ensures types { length self.old.by_type ≡ ORDER_TYPES }
    {
        let t = usize::from(e.order_type);
        let of_type = held_with(self.by_type.get(t).copied()?, e)?;
        self.all = held_with(self.all, e)?;
        self.by_type[t] = of_type;
        Some(())
    }
}

// Whether a mark is of its section's present epoch.
fn is_present(sections: &[Section], mark: Mark) -> bool
    ensures { result ≡ is_present sections.now mark }
{
    sections
        .get(mark.section)
        .is_some_and(|section| section.epoch == mark.epoch)
}

// Marks an order number; nothing where it stands under another mark, or there is no memory.
fn mark_order(
    orders: &mut HashMap<OrderNumber, Mark>,
    sections: &[Section],
    order: OrderNumber,
    mark: Mark,
) -> Option<()>
    ensures answer { 0 < spare orders.old
        → is_some result ≡ is_free sections.now orders.old order mark }
    ensures marks { IfSome result (λ _. Marks sections.now order mark orders.old orders.new) }
{
    let Ok(entry) = orders.entry(order) else {
        return None;
    };
    let found = entry.or_insert(mark);
    if *found != mark {
        if is_present(sections, *found) {
            return None;
        }
        *found = mark;
    }
    Some(())
}

/// What is known of a ledger's rows; nothing, where it is off.
#[derive(Drop)]
pub struct Index {
    pub known: bool,
    pub sections: Vec<Section>,
    pub orders: HashMap<OrderNumber, Mark>,
}

impl Index {
    /// Knows that there are no rows; of the groups below a number, with room for so many order numbers.
    pub fn new(alloc: Global, groups: usize, room: usize) -> Result<Index, AllocError>
        ensures known { IfOk result (λ x. x.known ≡ true) }
        ensures sections { IfOk result (λ x. section_count x ≡ 2 * groups) }
        ensures room { IfOk result (λ x. room ≤ spare x.orders) }
        ensures tells { IfOk result (λ x. Tells x []) }
    {
        let sections = groups.checked_mul(2).ok_or(AllocError)?;
        Ok(Index {
            known: true,
            sections: Vec::from_elem(alloc, Section::empty(0), sections)?,
            orders: HashMap::with_capacity(alloc, room)?,
        })
    }

    /// Knows that there are no rows.
    pub fn clear(&mut self)
        ensures known { self.new.known ≡ true }
        ensures sections { section_count self.new ≡ section_count self.old }
        ensures tells { Tells self.new [] }
    {
        self.sections.fill(Section::empty(0));
        self.orders.clear();
        self.known = true;
    }

    fn stands(&self, order: OrderNumber) -> bool
        ensures { result ≡ stands self.now.sections.items self.now.orders order }
    {
        self.orders
            .get(&order)
            .is_some_and(|mark| is_present(&self.sections, *mark))
    }

    /// Whether an order number stands among the rows.
    pub fn has_order(&self, order: OrderNumber) -> Option<bool>
        ensures { (rows : List Row) → Tells self.now rows
            → result ≡ answer_if self.now.known (has_order order rows) }
    {
        self.known.then(|| self.stands(order))
    }

    /// What some of the rows hold; nothing of a pick that has no place.
    pub fn held(&self, pick: Pick) -> Option<Held>
        ensures { (rows : List Row) → Tells self.now rows
            → result ≡ answer_if (covers self.now pick) (held_for pick rows) }
    {
        if !self.known {
            return None;
        }
        let section = section_number(pick.group, pick.kind)?;
        self.sections.get(section)?.held(pick.order_type)
    }

    // With one row more; nothing where that is not known.
    fn enter(&mut self, e: &Entry) -> Option<()>
        ensures known { self.new.known ≡ self.old.known }
        ensures sections { section_count self.new ≡ section_count self.old }
        ensures answer { (rows : List Row) → Holds self.old rows → 0 < spare self.old.orders
            → is_some result ≡ takes (section_count self.old) rows e.now }
        ensures keeps { IfSome result (λ _. (rows : List Row) → Holds self.old rows
            → Holds self.new (rows ++ e.now ∷ [])) }
    {
        let section = section_number(e.group, e.kind)?;
        let epoch = self.sections.get(section)?.epoch;
        let mark = Mark { section, epoch };
        mark_order(&mut self.orders, &self.sections, e.order, mark)?;
        self.sections.get_mut(section)?.add(e)?;
        Some(())
    }

    /// Knows of one row more, or is off where it cannot take it.
    pub fn add(&mut self, e: &Entry)
        ensures known { (rows : List Row) → Tells self.old rows → 0 < spare self.old.orders
            → self.new.known ≡ is_known_with self.old rows e.now }
        ensures sections { section_count self.new ≡ section_count self.old }
        ensures tells { (rows : List Row) → Tells self.old rows
            → Tells self.new (rows ++ e.now ∷ []) }
    {
        if self.known {
            self.known = self.enter(e).is_some();
        }
    }

    /// Knows that the rows of a group and kind are gone, in a time that does not grow with the rows.
    pub fn remove(&mut self, group: u8, kind: u8)
        ensures known { self.new.known ≡ is_known_without self.old group kind }
        ensures sections { section_count self.new ≡ section_count self.old }
        ensures tells { (rows : List Row) → Tells self.old rows
            → Tells self.new (filter (others group kind) rows) }
    {
        let Some(number) = section_number(group, kind) else {
            return;
        };
        if let Some(section) = self.sections.get_mut(number) {
            self.known &= section.clear();
        }
    }
}
