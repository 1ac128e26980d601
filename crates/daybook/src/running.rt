// A day, from the line that opens it to the next that opens one.
ghost use Rattle.std.specs.Prelude.{◌≡◌, ◌≤◌, IfOk, OnOk, MatchOption, None, length};
ghost use Rattle.book.specs.Book.{opened_book, records_by};
ghost use Rattle.book.specs.Calls.{run};
ghost use Rattle.book.specs.Law.{Balanced};
ghost use Rattle.transfer.specs.Transfers.{nought};
ghost use Rattle.daybook.specs.Asked.{calls_of, GoneOn, Shorter, FewerLeft};
ghost use Rattle.daybook.specs.declared.running.Behind.TheVariants.{Lines, Day as NextDay};

use crate::making::{make_call, make_call_in};
use crate::others::print_unless_passed;
use crate::shown::Shown;
use book::Day;
use families::Family;
use ledger::Ledger;
use script::{Call, Opening, Script, read_call};
use std::io;
use transfer::{Counts, Transfer};

// What comes behind a transfer: another, lines that the day is given straight, or what opens the next day.
#[derive(Drop)]
enum Behind<'a> {
    Transfer,
    Lines,
    Day(Opening<'a>),
}

// Makes the calls of a script's lines while a transfer runs, up to the line that ends it, and answers what comes behind. On every
// way out the transfer is over.
fn keep_transfer<'a, F: Family, L: Shown>(
    rt: &HostRuntime,
    counts: &mut Counts,
    day: &mut Day<F, L>,
    script: &mut Script<'a>,
) -> io::Result<Behind<'a>>
    ensures after { IfOk result (λ behind. GoneOn behind day.old day.new script.old script.new) }
    ensures bound { IfOk result (λ behind. Shorter behind script.old script.new) }
    ensures counts { counts.new ≡ nought }
{
    let mut transfer = Transfer::begin(counts);
    println!(rt; "begin")?;
    while let Some(line) = script.next() {
        match read_call(line) {
            Some(Call::Open(opening)) => return Ok(Behind::Day(opening)),
            Some(Call::Begin) => return Ok(Behind::Transfer),
            Some(Call::End) => {
                println!(rt; "end")?;
                return Ok(Behind::Lines);
            }
            Some(call) => make_call_in(rt, &mut transfer, day, &call)?,
            None => print_unless_passed(rt, line, script.number())?,
        }
    }
    Ok(Behind::Lines)
}

// Makes the calls of a script's lines through one transfer after another, and answers what opens the next day, if the last of them
// ends so. All count in one record.
fn keep_transfers<'a, F: Family, L: Shown>(
    rt: &HostRuntime,
    counts: &mut Counts,
    day: &mut Day<F, L>,
    script: &mut Script<'a>,
) -> io::Result<Option<Opening<'a>>>
    ensures after { IfOk result (λ next. MatchOption next
        (GoneOn Lines day.old day.new script.old script.new)
        (λ opening. GoneOn (NextDay opening) day.old day.new script.old script.new)) }
    ensures bound { OnOk result (length script.new.lines ≤ length script.old.lines) }
{
    loop {
        match keep_transfer(rt, counts, day, script)? {
            Behind::Transfer => {}
            Behind::Lines => return Ok(None),
            Behind::Day(opening) => return Ok(Some(opening)),
        }
    }
}

// Makes the calls of a script's lines on a day, up to the line that opens the next, and answers what opens it.
fn keep_day<'a, F: Family, L: Shown>(
    rt: &HostRuntime,
    day: &mut Day<F, L>,
    script: &mut Script<'a>,
) -> io::Result<Option<Opening<'a>>>
    ensures after { OnOk result (day.new ≡ run day.old (calls_of day.old None script.old.lines)) }
    ensures bound { IfOk result (λ next. FewerLeft next script.old script.new) }
{
    let mut counts = Counts::default();
    while let Some(line) = script.next() {
        match read_call(line) {
            Some(Call::Open(opening)) => return Ok(Some(opening)),
            Some(Call::Begin) => {
                if let Some(opening) = keep_transfers(rt, &mut counts, day, script)? {
                    return Ok(Some(opening));
                }
            }
            Some(Call::End) => println!(rt; "end")?,
            Some(call) => make_call(rt, day, &call)?,
            None => print_unless_passed(rt, line, script.number())?,
        }
    }
    Ok(None)
}

/// Opens a day on a ledger and makes the calls of a script's lines on it, up to the line that opens the next, and prints each
/// answer. Answers the day at its end, and what opens the next.
///
/// The day at its end is what those calls make of the day as it was opened, and no share and no cent has gone astray.
// Broker, date and first trade number come as `Day::open` takes them.
pub fn run_day<'a, F: Family, L: Shown>(
    rt: &HostRuntime,
    ledger: L,
    broker: &[u8],
    date: u64,
    first: u64,
    script: &mut Script<'a>,
) -> io::Result<(Day<F, L>, Option<Opening<'a>>)>
    ensures after { let b = opened_book F.allows (records_by F.layout F.extent) (L.room ledger)
        (L.lent ledger) broker.now date first in IfOk result
        (λ r. r.0 ≡ run b (calls_of b None script.old.lines)) }
    ensures law { let b = opened_book F.allows (records_by F.layout F.extent) (L.room ledger)
        (L.lent ledger) broker.now date first in OnOk result
        (Balanced b (calls_of b None script.old.lines)) }
    ensures bound { IfOk result (λ r. FewerLeft r.1 script.old script.new) }
{
    let mut day = Day::open(ledger, broker, date, first);
    println!(rt; "open")?;
    let next = keep_day(rt, &mut day, script)?;
    Ok((day, next))
}
