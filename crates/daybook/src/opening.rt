// What opens days, and what comes before them.
ghost use Rattle.std.specs.Prelude.{◌≡◌, ◌*◌, length, take, IfOk};
ghost use Rattle.blocks.specs.Filled.{lent_by};
ghost use Rattle.blocks.specs.Image.{blocks_in, filled};
ghost use Rattle.book.specs.Book.{records_by};
ghost use Rattle.daybook.specs.Asked.{day_kept, entries_lent, FewerLeft};

use crate::making::FILL;
use crate::others::{print_bad, print_inspection, print_split, print_unless_passed};
use crate::running::run_day;
use crate::shown::Shown;
use blocks::Blocks;
use families::{Family, Omnibus, Plan};
use groups::MOST_GROUPS;
use indexed::Indexed;
use ledger::{Entry, Ledger, Table};
use script::{Call, FamilyName, LedgerName, Opening, Script, read_call};
use std::io;

// Opening and script come side by side in these functions: the one is a line that was read, the other goes on behind it.

// A day of a family over a ledger, which has an index meanwhile and comes back at the day's end.
fn day_over<'a, F: Family, L: Shown>(
    rt: &HostRuntime,
    ledger: L,
    opening: &Opening<'_>,
    script: &mut Script<'a>,
) -> io::Result<(L, Option<Opening<'a>>)>
    ensures rows { IfOk result (λ r. L.rows r.0
        ≡ (day_kept F.allows (records_by F.layout F.extent) (L.room ledger) (L.lent ledger)
        opening.now script.old.lines).rows) }
    ensures room { IfOk result (λ r. L.room r.0 ≡ L.room ledger) }
    ensures lent { IfOk result (λ r. L.lent r.0 ≡ L.lent ledger) }
    ensures bound { IfOk result (λ r. FewerLeft r.1 script.old script.new) }
{
    let heap = rt.alloc();
    let broker = opening.broker.bytes(heap)?;
    let indexed = match Indexed::new(heap, ledger, MOST_GROUPS) {
        Ok(indexed) => indexed,
        Err((error, _)) => return Err(error.into()),
    };
    let (day, next) = run_day::<F, Indexed<L>>(
        rt,
        indexed,
        broker.as_slice(),
        opening.date,
        opening.first,
        script,
    )?;
    Ok((day.close().close(), next))
}

// A day of a family in entries that are lent. They come back at its end, and begin with its rows.
fn day_in_entries<'a, 'b, F: Family>(
    rt: &HostRuntime,
    entries: &'b mut [Entry],
    opening: &Opening<'_>,
    script: &mut Script<'a>,
) -> io::Result<(&'b mut [Entry], Option<Opening<'a>>)>
    ensures list { IfOk result (λ r. let rows =
        (day_kept F.allows (records_by F.layout F.extent) (length entries.old)
        (entries_lent entries.entry) opening.now script.old.lines).rows in take (length rows)
        r.0.now ≡ rows) }
    ensures size { IfOk result (λ r. length r.0.now ≡ length entries.old) }
    ensures lender { IfOk result (λ r. r.0.ghost_name ≡ entries.entry.ghost_name) }
    ensures bound { IfOk result (λ r. FewerLeft r.1 script.old script.new) }
{
    let table = Table::new(entries);
    let (table, next) = day_over::<F, Table<'_>>(rt, table, opening, script)?;
    Ok((table.into_entries(), next))
}

// A day of a family in blocks of bytes that are lent. They come back at its end: the blocks hold the image of its rows, and the bytes
// past them are as they were.
fn day_in_blocks<'a, 'b, F: Family>(
    rt: &HostRuntime,
    bytes: &'b mut [u8],
    opening: &Opening<'_>,
    script: &mut Script<'a>,
) -> io::Result<(&'b mut [u8], Option<Opening<'a>>)>
    ensures memory { IfOk result (λ r. let n = blocks_in bytes.old in r.0.now ≡ filled n
        (day_kept F.allows (records_by F.layout F.extent) (7 * n) (lent_by bytes.entry n)
        opening.now script.old.lines).rows bytes.old) }
    ensures lender { IfOk result (λ r. r.0.ghost_name ≡ bytes.entry.ghost_name) }
    ensures bound { IfOk result (λ r. FewerLeft r.1 script.old script.new) }
{
    let blocks = Blocks::new(bytes);
    let (blocks, next) = day_over::<F, Blocks<'_>>(rt, blocks, opening, script)?;
    Ok((blocks.into_bytes(), next))
}

// A day of a family.
fn day_of<'a, F: Family>(
    rt: &HostRuntime,
    opening: &Opening<'_>,
    script: &mut Script<'a>,
) -> io::Result<Option<Opening<'a>>>
    ensures bound { IfOk result (λ next. FewerLeft next script.old script.new) }
{
    let heap = rt.alloc();
    // From `u64` to `usize`, which keeps the value; a `try_from` would have a case that never comes.
    let size = opening.size as usize;
    match opening.ledger {
        LedgerName::Table => {
            let mut entries = vec![in heap; Entry::default(); size]?;
            let (_, next) = day_in_entries::<F>(rt, entries.as_mut_slice(), opening, script)?;
            Ok(next)
        }
        LedgerName::Blocks => {
            let mut bytes = vec![in heap; FILL; size]?;
            let (_, next) = day_in_blocks::<F>(rt, bytes.as_mut_slice(), opening, script)?;
            Ok(next)
        }
    }
}

/// Opens a day, makes the calls of a script on it, and answers what opens the next.
pub fn open_day<'a>(
    rt: &HostRuntime,
    opening: &Opening<'_>,
    script: &mut Script<'a>,
) -> io::Result<Option<Opening<'a>>>
    ensures bound { IfOk result (λ next. FewerLeft next script.old script.new) }
{
    match opening.family {
        FamilyName::Plan => day_of::<Plan>(rt, opening, script),
        FamilyName::Omnibus => day_of::<Omnibus>(rt, opening, script),
    }
}

/// Goes through the lines before the first that opens a day, and answers what opens it.
// Not one loop with `keep_day`: that promises what becomes of a day, and here there is none.
pub fn before_days<'a>(
    rt: &HostRuntime,
    script: &mut Script<'a>,
) -> io::Result<Option<Opening<'a>>> {
    while let Some(line) = script.next() {
        match read_call(line) {
            Some(Call::Open(opening)) => return Ok(Some(opening)),
            Some(Call::Inspect { bytes }) => print_inspection(rt, &bytes)?,
            Some(
                Call::Split {
                    quantity,
                    shares,
                    amount,
                },
            ) => print_split(rt, quantity, shares, amount)?,
            // No line can be handed on before there is a day, and its `open` ends a transfer.
            Some(Call::Begin) => println!(rt; "begin")?,
            Some(Call::End) => println!(rt; "end")?,
            Some(_) => print_bad(rt, script.number())?,
            None => print_unless_passed(rt, line, script.number())?,
        }
    }
    Ok(None)
}
