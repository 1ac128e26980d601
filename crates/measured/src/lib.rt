//! Whole days in one process, for a host that measures them: plain numbers and bytes in and out.
#![tactic(auto)]

mod running;
mod setup;

ghost use Rattle.std.specs.Prelude.{◌≡◌, IfOk, OnErr};
ghost use Rattle.measured.specs.Days.{given, given_by, IsMeasuredIn, IsMeasuredFor, IsTold};

use blocks::Blocks;
use families::{Family, Omnibus, Plan};
use groups::MOST_GROUPS;
use indexed::Indexed;
use ledger::{Entry, Ledger, Table};
use running::run_day;
use setup::Given;
pub use setup::{Came, Setup};
use std::alloc::{AllocError, Global};

// A day of a family over a ledger, with an index or without.
fn run_over<F: Family, L: Ledger + Drop>(
    heap: Global,
    ledger: L,
    with_index: bool,
    given: Given<'_>,
    replies: &mut [u8],
) -> Result<Came, AllocError>
    ensures measured { IfOk result (λ came. IsMeasuredIn F.allows F.layout F.extent (L.room ledger)
        (given_by given.entry) replies.old came replies.new) }
    ensures no_memory { OnErr result (replies.new ≡ replies.old) }
{
    if !with_index {
        return Ok(run_day::<F, L>(ledger, given, replies));
    }
    match Indexed::new(heap, ledger, MOST_GROUPS) {
        Ok(indexed) => Ok(run_day::<F, Indexed<L>>(indexed, given, replies)),
        Err((error, _)) => Err(error),
    }
}

// A day of a family, over the ledger that is asked for.
fn run_family<F: Family>(
    heap: Global,
    given: Given<'_>,
    replies: &mut [u8],
) -> Result<Came, AllocError>
    ensures measured { IfOk result (λ came. IsMeasuredFor F.allows F.layout F.extent (given_by given.entry) replies.old came replies.new) }
    ensures no_memory { OnErr result (replies.new ≡ replies.old) }
{
    let size = given.setup.size as usize;
    let with_index = given.setup.ledger % 4 >= 2;
    if given.setup.ledger % 2 == 1 {
        let mut bytes = vec![in heap; 0; size]?;
        let blocks = Blocks::new(bytes.as_mut_slice());
        run_over::<F, Blocks<'_>>(heap, blocks, with_index, given, replies)
    } else {
        let mut entries = vec![in heap; Entry::default(); size]?;
        let table = Table::new(entries.as_mut_slice());
        run_over::<F, Table<'_>>(heap, table, with_index, given, replies)
    }
}

/// Opens a day and makes what a host gives: rows of totals, of 80 bytes each; lines of 200 bytes, first those before what is measured; and
/// the questions. Where there is no memory for the ledger, nothing is done.
#[unsafe(no_mangle)]
pub extern "C" fn grapewinch_day(
    heap: Global,
    setup: &Setup,
    broker: &[u8],
    totals: &[u8],
    earlier: &[u8],
    lines: &[u8],
    replies: &mut [u8],
) -> Came
    ensures { IsTold (given setup.now broker.now totals.now earlier.now lines.now) replies.old result replies.new }
{
    let given = Given {
        setup: *setup,
        broker,
        totals,
        earlier,
        lines,
    };
    let measured = match setup.family {
        0 => run_family::<Plan>(heap, given, replies),
        _ => run_family::<Omnibus>(heap, given, replies),
    };
    measured.unwrap_or_default()
}
