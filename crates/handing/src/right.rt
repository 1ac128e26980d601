// Two programs as they have to be written. In each, a line of the wrong program is among the edits that the check must refuse.
ghost use Rattle.std.specs.Prelude.{◌≡◌, ◌*◌, length};
ghost use Rattle.lots.specs.Units.{shares_in};
ghost use Rattle.transfer.specs.Transfers.{nought};
ghost use Rattle.handing.specs.Right.{second_outcome, second_counted, written_twice};

use book::Day;
use families::Family;
use ledger::Ledger;
use lots::{Shares, TradingUnits, UnitSize};
use transfer::{Counts, Transfer};

/// Hands a line on twice, each time by a transfer of its own on the same record, and answers what the second has counted. The first
/// has to end before the second can be begun, and so the second counts one line and not two.
pub fn hand_twice<F: Family, L: Ledger>(
    counts: &mut Counts,
    day: &mut Day<F, L>,
    line: &[u8],
    clock: u64,
    replies: &mut [u8],
) -> Counts
    ensures answer { result ≡ second_counted day.old line.now clock (length replies.old) }
    ensures after { day.new ≡ (second_outcome day.old line.now clock (length replies.old)).book }
    ensures memory { replies.new ≡ written_twice day.old line.now clock replies.old }
    ensures counts { counts.new ≡ nought }
{
    let mut first = Transfer::begin(counts);
    let _ = first.line(day, line, clock, replies);
    // On one line, so that the edit which goes on with the first takes both away.
    #[rattlefmt::skip]
    let mut second = { first.end(); Transfer::begin(counts) };
    let _ = second.line(day, line, clock, replies);
    second.counts()
}

/// How many shares are asked for where trading units are given: they are converted with the size of the unit.
pub fn shares_asked(units: TradingUnits, size: UnitSize) -> Shares
    ensures { result ≡ record { count = units.count * shares_in size } }
{
    units.shares(size)
}
