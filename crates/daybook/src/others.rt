// Calls that need no day, and lines that make no call. The one `as` is from `u64` to `usize`, which keeps the value.
use crate::printing::print_entry;
use blocks::{ENTRIES_PER_BLOCK, blocks_in, entry_at};
use inspection::inspect;
use ledger::Entry;
use lots::{Cents, Shares, split};
use script::ByteWord;
use std::io;

pub fn print_split(rt: &HostRuntime, quantity: u64, shares: u64, amount: u64) -> io::Result<()> {
    let (first, second) = split(quantity, Shares { count: shares }, Cents { count: amount });
    let first_quantity = first.0;
    let first_price = first.1.count;
    let second_quantity = second.0;
    let second_price = second.1.count;
    println!(rt; "split {first_quantity} {first_price} {second_quantity} {second_price}")?;
    Ok(())
}

// Entry `i` of some blocks, or nothing where they have no place for it. `read_entry` of `inspection` would inspect all the bytes
// anew for each entry.
fn entry_in(bytes: &[u8], i: usize) -> Option<Entry> {
    (i / ENTRIES_PER_BLOCK < blocks_in(bytes.len())).then(|| entry_at(bytes, i))
}

/// How many leading blocks are sound, and the entries in them, each read by its place.
pub fn print_inspection(rt: &HostRuntime, word: &ByteWord<'_>) -> io::Result<()> {
    let bytes = word.bytes(rt.alloc())?;
    let found = inspect(bytes.as_slice());
    let blocks = found.blocks;
    let entries = found.entries;
    println!(rt; "inspect {blocks} {entries}")?;
    for e in (0..entries as usize).filter_map(|i| entry_in(bytes.as_slice(), i)) {
        print_entry(rt, &e)?;
    }
    Ok(())
}

/// A line that makes no call: it is bad, unless it is empty or a comment.
pub fn print_unless_passed(rt: &HostRuntime, line: &[u8], number: u64) -> io::Result<()> {
    match line {
        [] | [b'#', ..] => Ok(()),
        _ => print_bad(rt, number),
    }
}

pub fn print_bad(rt: &HostRuntime, number: u64) -> io::Result<()> {
    println!(rt; "bad line {number}")?;
    Ok(())
}
