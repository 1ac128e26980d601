// The table of a filing: a line for each piece, with running figures, and the sums.
ghost use Rattle.std.specs.Prelude.{◌≡◌, ◌+◌, ◌*◌, ◌^◌, ◌<◌, true, IfOk};
ghost use Rattle.lots.specs.Pieces.{piece_worth};
ghost use Rattle.preview.specs.Table.{shares_each, line_of, lines_of, agrees, Summed, Balanced};

use crate::accepted::Filing;
use crate::asked::Terms;
use lots::{Cents, Piece, Pieces, Shares, split};
use std::alloc::{AllocError, Global};

/// One piece that comes back, and what has come back with it.
#[derive(Clone, Copy)]
pub struct Line {
    pub quantity: u64,
    pub shares: Shares,
    pub price: Cents,
    pub amount: Cents,
    pub running_quantity: u64,
    pub running_amount: Cents,
}

/// The pieces that a filing comes back as, and their sums.
#[derive(Drop)]
pub struct Table {
    pub lines: Vec<Line>,
    pub quantity: u64,
    pub shares: Shares,
    pub amount: Cents,
}

// The line of a piece, after a running quantity and amount.
fn next_line(terms: &Terms, quantity: u64, amount: u64, piece: Piece) -> Line
    requires small { piece.quantity < 2 ^ 32 }
    requires quantities { quantity + piece.quantity < 2 ^ 64 }
    requires amounts { amount + piece_worth (shares_each terms.now) piece < 2 ^ 64 }
    ensures { result ≡ line_of (shares_each terms.now) quantity amount piece }
{
    // The `as` keeps the quantity, by `small`; a `try_from` would have a case that never comes.
    let shares = terms.lot().shares_in(piece.quantity as u32);
    let worth = shares.count * piece.price.count;
    Line {
        quantity: piece.quantity,
        shares,
        price: piece.price,
        amount: Cents { count: worth },
        running_quantity: quantity + piece.quantity,
        running_amount: Cents {
            count: amount + worth,
        },
    }
}

/// The table of a filing: a line for each piece, in order, and the sums over them.
pub fn tabulate(heap: Global, filing: Filing) -> Result<Table, AllocError>
    ensures lines { IfOk result (λ t. t.lines.items ≡ lines_of filing.terms) }
    ensures sums { IfOk result Summed }
    ensures law { IfOk result (λ t. Balanced filing.terms t.lines.items) }
    ensures equal { IfOk result (λ t. agrees t filing.terms ≡ true) }
{
    let terms = filing.terms;
    let (first, second) = split(terms.quantity, terms.lot().shares_each(), terms.amount);
    // A loop: each line goes on from the one before it, and a push may find no memory.
    let mut lines = Vec::new(heap);
    let mut quantity = 0;
    let mut shares = 0;
    let mut amount = 0;
    for piece in Pieces::of(first, second, terms.family.cuts(terms.kind)) {
        let line = next_line(&terms, quantity, amount, piece);
        quantity = line.running_quantity;
        shares += line.shares.count;
        amount = line.running_amount.count;
        lines.push(line)?;
    }
    Ok(Table {
        lines,
        quantity,
        shares: Shares { count: shares },
        amount: Cents { count: amount },
    })
}

impl Table {
    /// Whether the sums are the quantity and the amount that were filed.
    pub fn agrees(&self, terms: &Terms) -> bool
        ensures { result ≡ agrees self.now terms.now }
    {
        self.quantity == terms.quantity && self.amount == terms.amount
    }
}
