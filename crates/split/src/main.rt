// Tells how a filing will come back: its pieces as a table, with running figures and sums.
#![tactic(auto)]

use lots::Kind;
use preview::{Argument, Family, Filing, Line, Refusal, Table, Terms, read_filing, tabulate};
use std::env;
use std::process::ExitCode;
use yuan::{show_cents, show_number};

const USAGE: &str =
    "five words are wanted: family, kind, shares in a trading unit, quantity and amount in yuan, as: split plan board 1000 3 100,010.00";

// The five words that tell a filing.
#[derive(Clone, Copy)]
struct Words<'a> {
    family: &'a str,
    kind: &'a str,
    unit: &'a str,
    quantity: &'a str,
    amount: &'a str,
}

// What one of the quantity is called. The names stand here, since each program has its own words for what it prints.
fn unit_name(kind: Kind) -> &'static str {
    match kind {
        Kind::BoardLot => "trading units",
        Kind::OddLot => "shares",
    }
}

// The first line of the output: what was filed.
fn print_filing(rt: &HostRuntime, terms: &Terms) -> anyhow::Result<()> {
    let heap = rt.alloc();
    let family = match terms.family {
        Family::Plan => "Plan account",
        Family::Omnibus => "Omnibus account",
    };
    let kind = match terms.kind {
        Kind::BoardLot => "board lots",
        Kind::OddLot => "odd lots",
    };
    let size = show_number(heap, terms.size.shares().count)?;
    let quantity = show_number(heap, terms.quantity)?;
    let unit = unit_name(terms.kind);
    let amount = show_cents(heap, terms.amount)?;
    println!(rt;
        "{family}, {kind}, trading unit of {size} shares: {quantity} {unit} for {amount} yuan"
    )?;
    Ok(())
}

fn print_line(rt: &HostRuntime, place: usize, line: &Line) -> anyhow::Result<()> {
    let heap = rt.alloc();
    let quantity = show_number(heap, line.quantity)?;
    let shares = show_number(heap, line.shares.count)?;
    let price = show_cents(heap, line.price)?;
    let amount = show_cents(heap, line.amount)?;
    let running_quantity = show_number(heap, line.running_quantity)?;
    let running_amount = show_cents(heap, line.running_amount)?;
    println!(rt;
        "{place:>5} {quantity:>9} {shares:>11} {price:>10} {amount:>19} {running_quantity:>17} {running_amount:>19}"
    )?;
    Ok(())
}

// The last line of the output: the sums, and whether they are what was filed.
fn print_sums(rt: &HostRuntime, terms: &Terms, table: &Table) -> anyhow::Result<()> {
    let heap = rt.alloc();
    let quantity = show_number(heap, table.quantity)?;
    let unit = unit_name(terms.kind);
    let shares = show_number(heap, table.shares.count)?;
    let amount = show_cents(heap, table.amount)?;
    let verdict = if table.agrees(terms) {
        "equal to what was filed"
    } else {
        "NOT what was filed"
    };
    println!(rt;
        "Sum: quantity {quantity} ({unit}), shares {shares}, amount {amount} yuan: {verdict}"
    )?;
    Ok(())
}

fn print_table(rt: &HostRuntime, filing: Filing) -> anyhow::Result<()> {
    let terms = filing.terms;
    let table = tabulate(rt.alloc(), filing)?;
    print_filing(rt, &terms)?;
    println!(rt;
        "Piece  Quantity      Shares      Price              Amount  Running quantity      Running amount"
    )?;
    for (i, line) in table.lines.iter().enumerate() {
        print_line(rt, i.saturating_add(1), line)?;
    }
    print_sums(rt, &terms, &table)
}

// One sentence that says which word is at fault, and why.
fn print_refusal(rt: &HostRuntime, words: Words<'_>, refusal: Refusal) -> anyhow::Result<()> {
    let argument = refusal.argument();
    let word = match argument {
        Argument::Family => words.family,
        Argument::Kind => words.kind,
        Argument::Unit => words.unit,
        Argument::Quantity => words.quantity,
        Argument::Amount => words.amount,
    };
    match refusal.ground() {
        Some(ground) => eprintln!(rt; "{argument} {word:?}: {refusal} (ground {ground})")?,
        None => eprintln!(rt; "{argument} {word:?}: {refusal}")?,
    }
    Ok(())
}

fn answer(rt: &HostRuntime, words: Words<'_>) -> anyhow::Result<ExitCode> {
    let read = read_filing(
        words.family.as_bytes(),
        words.kind.as_bytes(),
        words.unit.as_bytes(),
        words.quantity.as_bytes(),
        words.amount.as_bytes(),
    );
    match read {
        Ok(filing) => {
            print_table(rt, filing)?;
            Ok(ExitCode::SUCCESS)
        }
        Err(refusal) => {
            print_refusal(rt, words, refusal)?;
            Ok(ExitCode::FAILURE)
        }
    }
}

fn main(rt: HostRuntime) -> anyhow::Result<ExitCode> {
    let words: Vec<String> = env::args(&rt)?.collect(rt.alloc())?;
    let [_, family, kind, unit, quantity, amount] = words.as_slice() else {
        eprintln!(rt; "{USAGE}")?;
        return Ok(ExitCode::FAILURE);
    };
    let told = Words {
        family: family.as_str(),
        kind: kind.as_str(),
        unit: unit.as_str(),
        quantity: quantity.as_str(),
        amount: amount.as_str(),
    };
    answer(&rt, told)
}
