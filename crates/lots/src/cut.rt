// What the runs of a filing come back as: pieces, each under a trade number of its own.
ghost use Rattle.std.specs.Prelude.{◌≡◌, length};
ghost use Rattle.lots.specs.Pieces.{next_piece, after_piece, pieces_of, pending, Pieced, Steps};
ghost use Rattle.std.specs.Iterator.{at_most};

use crate::runs::Run;
use crate::units::Cents;

/// The most trading units that come back under one trade number.
pub const LARGEST_PIECE: u64 = 499;

/// A quantity that comes back at one price.
#[derive(Clone, Copy)]
pub struct Piece {
    pub quantity: u64,
    pub price: Cents,
}

/// The pieces of two runs that are still to come, those of the first run first.
#[derive(Clone, Copy)]
pub struct Pieces {
    first: Run,
    second: Run,
    // Yes or no, as the family's rule answers for a kind.
    cut: bool,
}

impl Pieces {
    /// The pieces of two runs. Board lots of an omnibus account are cut: each run into pieces of 499 and one of any rest.
    /// Otherwise a run is one piece. An empty run has none.
    pub fn of(first: Run, second: Run, cut: bool) -> Self
        ensures items { pending result ≡ pieces_of cut (first, second) }
        ensures law { Pieced cut (first, second) (pending result) }
    {
        Pieces { first, second, cut }
    }
}

// The next piece of a run, and what is left of the run.
fn next_piece(run: Run, cut: bool) -> (Piece, Run)
    ensures { result ≡ (next_piece cut run, after_piece cut run) }
{
    let (left, price) = run;
    let quantity = if cut && left > LARGEST_PIECE {
        LARGEST_PIECE
    } else {
        left
    };
    (Piece { quantity, price }, (left - quantity, price))
}

impl Iterator for Pieces {
    type Item = Piece;

    ghost next_gives = { Steps };

    ghost remaining = { λ p. at_most (length (pending p)) };

    // A block for each run: each takes from a field of its own, and a loop over the two would be no shorter.
    fn next(&mut self) -> Option<Piece> {
        if self.first.0 > 0 {
            let (piece, rest) = next_piece(self.first, self.cut);
            self.first = rest;
            return Some(piece);
        }
        if self.second.0 > 0 {
            let (piece, rest) = next_piece(self.second, self.cut);
            self.second = rest;
            return Some(piece);
        }
        None
    }
}
