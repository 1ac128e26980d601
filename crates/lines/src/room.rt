// Judging whether there is room for a filing: its order number, what is open, trade numbers, places and replies.
ghost use Rattle.std.specs.Prelude.{◌≡◌, length};
ghost use Rattle.std.specs.Result.{result_err};
ghost use Rattle.judge.specs.Grounds.{first_of};
ghost use Rattle.lines.specs.Room.{used_order, order_grounds, room_grounds};

use crate::open::Standing;
use judge::{Ground, LAST_TRADE_NUMBER, Wanted, ensure};
use ledger::{Ledger, OrderNumber};

// Whether an order number is malformed, or stands in the ledger.
fn is_used<L: Ledger>(ledger: &L, order: Option<OrderNumber>) -> bool
    ensures { result ≡ used_order (L.rows ledger.now) order }
{
    order.is_none_or(|number| ledger.has_order(number))
}

/// Refuses a filing on its order number, if that ground applies.
pub fn judge_order<L: Ledger>(ledger: &L, order: Option<OrderNumber>) -> Result<(), Ground>
    ensures { result_err result ≡ first_of (order_grounds (L.rows ledger.now) order) }
{
    ensure(!is_used(ledger, order), Ground::Order)
}

/// Refuses a filing whose terms are good on the first of the grounds on open shares, open amount, trade numbers, free places
/// and replies that applies. `next` is the next trade number, `room` the length of the buffer and `each` that of a reply.
pub fn judge_room<L: Ledger>(
    ledger: &L,
    standing: Standing,
    wanted: Wanted,
    next: u32,
    room: usize,
    each: usize,
) -> Result<(), Ground>
    ensures { result_err result ≡ first_of (room_grounds (length (L.rows ledger.now)) (L.room ledger.now) standing wanted next room each) }
{
    let open = u128::from(standing.open_shares.count);
    ensure(wanted.shares() <= open, Ground::OpenShares)?;
    ensure(
        wanted.amount.count <= standing.open_amount.count,
        Ground::OpenAmount,
    )?;
    // Lengths are widened by `as`, since a `usize` has no `From` into `u128`.
    let pieces = u128::from(wanted.piece_count());
    let behind = u128::from(next) + pieces;
    ensure(
        behind <= u128::from(LAST_TRADE_NUMBER) + 1,
        Ground::TradeNumber,
    )?;
    ensure(
        ledger.count() as u128 + pieces <= ledger.capacity() as u128,
        Ground::Places,
    )?;
    ensure(pieces * each as u128 <= room as u128, Ground::Replies)
}
