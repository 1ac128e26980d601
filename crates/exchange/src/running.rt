// Runs a day's cases one after another, and prints a line for each.
use crate::cases::{Case, TradingDay};
use crate::comparing::take_step;
use book::Day;
use families::Family;
use ledger::{Entry, Table};
use std::io;

// Makes the calls of a case and prints its line; answers whether something differed. The calls behind the first that differs are
// made all the same, so that the next case begins where it should.
fn run_case<F: Family>(
    rt: &HostRuntime,
    day: &mut Day<F, Table<'_>>,
    case: &Case,
) -> io::Result<bool> {
    let mut first = None;
    for (i, step) in case.steps.iter().enumerate() {
        if let Err(difference) = take_step(day, step) {
            first = first.or(Some((i.saturating_add(1), difference)));
        }
    }
    let what = case.what;
    match first {
        None => println!(rt; "  {what}: as expected")?,
        Some((call, difference)) => println!(rt; "  {what}: in call {call}, {difference}")?,
    }
    Ok(first.is_some())
}

/// Opens a day and runs its cases; answers whether something differed.
pub fn run_day<F: Family>(rt: &HostRuntime, on: &TradingDay) -> io::Result<bool> {
    let what = on.what;
    let broker = on.broker;
    let mut entries = [Entry::default(); 16];
    let mut day: Day<F, Table<'_>> = Day::open(Table::new(&mut entries), broker, on.date, on.first);
    println!(rt; "{what}")?;
    let mut differed = false;
    for case in on.cases.iter() {
        differed |= run_case(rt, &mut day, case)?;
    }
    Ok(differed)
}
