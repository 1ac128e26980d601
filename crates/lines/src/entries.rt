// The entries that the pieces of a filing become, with their running figures.
ghost use Rattle.std.specs.Prelude.{◌≡◌, ◌≤◌, [], ◌∷◌, length};
ghost use Rattle.lots.specs.Pieces.{pending};
ghost use Rattle.lines.specs.Entries.{entering_of, after, entry_after, entries_from, Entered, Room};

use arrayvec::ArrayVec;
use families::{Filed, Rules};
use judge::Target;
use ledger::{Entry, OrderNumber};
use lots::{Lot, Piece, Pieces};

/// The most pieces that a filing comes back as.
pub const MOST_PIECES: usize = 22;

/// What a filing's entries have in common.
#[derive(Clone, Copy)]
pub struct Entering {
    /// The number of the group.
    pub group: u8,
    pub lot: Lot,
    pub order: OrderNumber,
    /// Four characters, the first in the low byte; blanks where the family has none.
    pub new_broker: u32,
    pub new_account: u32,
    /// 0 to 6; 0 where the family has none.
    pub order_type: u8,
    /// Whether running figures by order type are kept.
    pub by_type: bool,
}

/// Where an entry begins: its trade number, and the running figures before it.
#[derive(Clone, Copy)]
pub struct Before {
    pub trade_number: u32,
    pub quantity: u32,
    pub amount: u64,
    pub type_quantity: u32,
    pub type_amount: u64,
}

impl Entering {
    /// What the entries of a filing have in common, with 0 for a field that is malformed.
    // Plain values: a filing comes here once no ground applies to it, and then each field is there.
    pub fn of(rules: Rules, target: Target, filed: Filed) -> Entering
        ensures { result ≡ entering_of rules target filed }
    {
        Entering {
            group: target.place.number,
            lot: target.lot(),
            order: filed.common.order.unwrap_or_default(),
            new_broker: filed.new_broker.unwrap_or_default(),
            new_account: filed.common.investor.map_or(0, |to| to.number),
            order_type: filed.order_type.unwrap_or_default(),
            by_type: rules.order_type,
        }
    }

    // The running figures behind a piece.
    fn after(self, before: Before, piece: Piece) -> Before
        requires { Room self before (piece ∷ []) }
        ensures { result ≡ after self before piece }
    {
        // The `requires` bounds it, and in `step` the price too; a `try_from` would want a case that never comes.
        let quantity = piece.quantity as u32;
        let worth = self.lot.shares_in(quantity).count * piece.price.count;
        // An entry has these figures as plain numbers, 0 where they are not kept.
        let (type_quantity, type_amount) = if self.by_type {
            (before.type_quantity + quantity, before.type_amount + worth)
        } else {
            (0, 0)
        };
        Before {
            trade_number: before.trade_number + 1,
            quantity: before.quantity + quantity,
            amount: before.amount + worth,
            type_quantity,
            type_amount,
        }
    }

    // A piece as an entry, and the running figures behind it.
    fn step(self, before: Before, piece: Piece) -> (Entry, Before)
        requires { Room self before (piece ∷ []) }
        ensures { result ≡ (entry_after self before piece, after self before piece) }
    {
        let behind = self.after(before, piece);
        let entry = Entry {
            group: self.group,
            kind: u8::from(self.lot.kind),
            order_type: self.order_type,
            order: self.order,
            new_broker: self.new_broker,
            new_account: self.new_account,
            quantity: piece.quantity as u32,
            price: piece.price.count as u32,
            trade_number: before.trade_number,
            running_quantity: behind.quantity,
            running_amount: behind.amount,
            type_quantity: behind.type_quantity,
            type_amount: behind.type_amount,
        };
        (entry, behind)
    }
}

/// The entries that the pieces of a filing become, in order.
pub(crate) fn entries_of(
    entering: Entering,
    before: Before,
    pieces: Pieces,
) -> ArrayVec<Entry, MOST_PIECES>
    requires few { length (pending pieces) ≤ 22 }
    requires room { Room entering before (pending pieces) }
    ensures items { result.items ≡ entries_from entering before (pending pieces) }
    ensures count { length result.items ≡ length (pending pieces) }
    ensures law { Entered entering before (pending pieces) result.items }
{
    // A loop: each entry begins where the one before it ends, and a `scan` would say so in no fewer words.
    let mut entries = ArrayVec::new();
    let mut at = before;
    for piece in pieces {
        let (entry, behind) = entering.step(at, piece);
        entries.push(entry);
        at = behind;
    }
    entries
}
