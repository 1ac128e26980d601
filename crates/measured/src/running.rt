// A day that is measured, in parts. What is measured stands in functions named `measure_..`, which are never inlined, so that a
// profiler finds them by name.
ghost use Rattle.std.specs.Prelude.{◌≡◌, [], fold};
ghost use Rattle.book.specs.Questions.{verdict_answer};
ghost use Rattle.measured.specs.Days.{stand, with_total, with_line, open_shares, repeated, given_by, IsMeasuredIn};

use crate::setup::{Came, Given, Setup};
use book::Day;
use families::{Family, GroupFields, TOTAL_LENGTH, TOTAL_ROW};
use ledger::Ledger;

// Takes rows of totals, and counts those that are accepted.
fn take_totals<F: Family, L: Ledger>(
    day: &mut Day<F, L>,
    totals: &[[u8; TOTAL_LENGTH]],
    unit: u64,
) -> u64
    ensures { stand day.new [] result ≡ fold (with_total unit) (stand day.old [] 0) totals.now }
{
    let mut accepted = 0;
    for total in totals {
        accepted += u64::from(day.total_row(total, unit).is_ok());
    }
    accepted
}

// Takes lines, and counts those that are accepted.
fn take_lines<F: Family, L: Ledger>(
    day: &mut Day<F, L>,
    lines: &[[u8; 200]],
    clock: u64,
    replies: &mut [u8],
) -> u64
    ensures { stand day.new replies.new result ≡ fold (with_line clock) (stand day.old replies.old 0) lines.now }
{
    let mut accepted = 0;
    for line in lines {
        accepted += u64::from(day.line(line, clock, replies).is_ok());
    }
    accepted
}

// The lines that are measured.
#[inline(never)]
fn measure_lines<F: Family, L: Ledger>(
    day: &mut Day<F, L>,
    lines: &[[u8; 200]],
    clock: u64,
    replies: &mut [u8],
) -> u64
    ensures { stand day.new replies.new result ≡ fold (with_line clock) (stand day.old replies.old 0) lines.now }
{
    take_lines(day, lines, clock, replies)
}

// Asks for the figures of a total's group, so many times.
#[inline(never)]
fn measure_figures<F: Family, L: Ledger>(
    day: &Day<F, L>,
    total: &[u8; TOTAL_LENGTH],
    times: u64,
) -> u64
    ensures { result ≡ repeated times (open_shares day.now total.now) }
{
    let group = GroupFields::of(&TOTAL_ROW, total);
    let mut sum: u64 = 0;
    for _ in 0..times {
        let told = day.figures(group);
        sum = sum.wrapping_add(told.map_or(0, |(shares, _, _)| shares.count));
    }
    sum
}

// Asks for the verdict, so many times.
#[inline(never)]
fn measure_verdicts<F: Family, L: Ledger>(day: &Day<F, L>, times: u64) -> u64
    ensures { result ≡ repeated times (verdict_answer day.now) }
{
    let mut sum: u64 = 0;
    for _ in 0..times {
        sum = sum.wrapping_add(u64::from(u8::from(day.verdict())));
    }
    sum
}

/// Opens a day over a ledger, makes the totals and the earlier lines, and then what is measured.
pub(crate) fn run_day<F: Family, L: Ledger + Drop>(
    ledger: L,
    given: Given<'_>,
    replies: &mut [u8],
) -> Came
    ensures { IsMeasuredIn F.allows F.layout F.extent (L.room ledger) (given_by given.entry) replies.old result replies.new }
{
    let Setup {
        date,
        first,
        unit,
        clock,
        ..
    } = given.setup;
    let mut day = Day::<F, L>::open(ledger, given.broker, date, first);
    let rows = given.totals.as_chunks::<TOTAL_LENGTH>().0;
    let totals = take_totals(&mut day, rows, unit);
    let earlier = take_lines(&mut day, given.earlier.as_chunks::<200>().0, clock, replies);
    let lines = measure_lines(&mut day, given.lines.as_chunks::<200>().0, clock, replies);
    let figures = rows.first().map_or(0, |total| measure_figures(&day, total, given.setup.figures));
    let verdicts = measure_verdicts(&day, given.setup.verdicts);
    Came {
        opened: 1,
        totals,
        earlier,
        lines,
        rows: day.close().count() as u64,
        figures,
        verdicts,
    }
}
