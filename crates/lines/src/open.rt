// Open figures of a group: what was traded less what its rows hold.
ghost use Rattle.std.specs.Prelude.{◌≡◌, ◌+◌, ◌-◌, ◌*◌, ◌<◌, Some, None};
ghost use Rattle.ledger.specs.Rows.{held_by, picked};
ghost use Rattle.groups.specs.Groups.{totals_of};
ghost use Rattle.lines.specs.Open.{state_of, unfinished, standing_with, standing_at, survey_at, every};

use groups::{GroupTable, Place, Traded};
use judge::Target;
use ledger::{Held, Ledger, Pick};
use lots::{Cents, Kind, Shares};

/// Whether a group is done with.
#[derive(Clone, Copy, PartialEq, Eq, Debug)]
pub enum State {
    Unfinished,
    /// Both open figures are 0.
    Complete,
    /// A retention has taken the group.
    Retained,
}

/// How a group stands.
#[derive(Clone, Copy)]
pub struct Standing {
    pub retained: bool,
    pub open_shares: Shares,
    pub open_amount: Cents,
}

/// What a look through the rows finds for a filing.
#[derive(Clone, Copy)]
pub struct Survey {
    /// How the filing's group stands.
    pub standing: Standing,
    /// What the rows of its group and kind hold.
    pub held: Held,
    /// The same of those of its order type.
    pub of_type: Held,
}

// What is left of `traded` after `board` units of `each` and `odd` shares; nothing where these are more.
fn left(traded: u64, board: u128, each: u64, odd: u128) -> u64
    ensures { result ≡ traded - (board * each + odd) }
{
    let held = board.saturating_mul(u128::from(each)).saturating_add(odd);
    // It is at most `traded`; a `try_from` would want a case that never comes.
    u128::from(traded).saturating_sub(held) as u64
}

impl Standing {
    // How a group stands that has traded so much, and whose rows of either kind hold so much.
    fn with(place: Place, traded: Traded, board: Held, odd: Held) -> Standing
        ensures { result ≡ standing_with traded place.group board odd }
    {
        let each = place.group.size.shares().count;
        Standing {
            retained: place.group.retained,
            open_shares: Shares {
                count: left(traded.shares.count, board.quantity, each, odd.quantity),
            },
            open_amount: Cents {
                count: left(traded.amount.count, board.amount, each, odd.amount),
            },
        }
    }

    /// Unfinished, complete or retained.
    pub fn state(self) -> State
        ensures { result ≡ state_of self }
    {
        if self.retained {
            return State::Retained;
        }
        if self.open_shares.count == 0 && self.open_amount.count == 0 {
            return State::Complete;
        }
        State::Unfinished
    }

    /// Whether the group is neither complete nor retained.
    pub fn is_unfinished(self) -> bool
        ensures { result ≡ unfinished self }
    {
        self.state() == State::Unfinished
    }
}

// The rows of a group and kind, of every order type.
fn every(number: u8, kind: Kind) -> Pick
    ensures { result ≡ every number kind None }
{
    Pick {
        group: number,
        kind: u8::from(kind),
        order_type: None,
    }
}

/// How a group stands.
pub fn standing_of<L: Ledger>(table: &GroupTable, ledger: &L, place: Place) -> Standing
    ensures { result ≡ standing_at (totals_of table.now) (L.rows ledger.now) place.number place.group }
{
    let board_lots = every(place.number, Kind::BoardLot);
    let odd_lots = every(place.number, Kind::OddLot);
    let (board, odd, _) = ledger.survey((board_lots, odd_lots, odd_lots));
    let traded = table.traded(usize::from(place.number));
    Standing::with(place, traded, board, odd)
}

/// What a filing of an order type is judged and entered by, in one look through the rows.
pub fn survey_for<L: Ledger>(
    table: &GroupTable,
    ledger: &L,
    target: Target,
    order_type: u8,
) -> Survey
    ensures { result ≡ survey_at (totals_of table.now) (L.rows ledger.now) target order_type }
{
    let place = target.place;
    let of_type = Pick {
        order_type: Some(order_type),
        ..every(place.number, target.kind)
    };
    let (board, odd, of_type) = ledger.survey((
        every(place.number, Kind::BoardLot),
        every(place.number, Kind::OddLot),
        of_type,
    ));
    let traded = table.traded(usize::from(place.number));
    Survey {
        standing: Standing::with(place, traded, board, odd),
        held: match target.kind {
            Kind::BoardLot => board,
            Kind::OddLot => odd,
        },
        of_type,
    }
}
