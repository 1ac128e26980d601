// Inspects a file of saved blocks: how many are sound, the entries that they hold, and what is wrong with the first that is not.
#![tactic(auto)]

use blocks::{BLOCK_BYTES, blocks_in};
use inspection::{Fault, Found, first_fault, inspect, read_entry};
use ledger::Entry;
use lots::{Cents, Kind};
use std::alloc::{AllocError, Global};
use std::process::ExitCode;
use std::{env, fmt, fs};
use yuan::{show_cents, show_number};

const USAGE: &str = "one word is wanted: the name of a file of blocks, as: inspect sound.img";

const HEADING: &str =
    "Entry Group      Kind Type Order Broker Account  Quantity      Price    Trade Running quantity      Running amount Of its type              Amount";

// A packed character, as it stands or as a point where no line could hold it.
fn character(byte: u8) -> char {
    match byte {
        b' '..=b'~' => char::from(byte),
        _ => '.',
    }
}

// The characters packed in four bytes, the first in the low byte.
fn packed(heap: Global, four: u32) -> Result<String, AllocError> {
    four.to_le_bytes()
        .iter()
        .map(|byte| character(*byte))
        .collect(heap)
}

// The kind of an entry in some file, which may be any byte. No `Display` of `Kind`: each program has its own words.
fn kind_name(kind: u8) -> &'static str {
    match Kind::try_from(kind) {
        Ok(Kind::BoardLot) => "board lot",
        Ok(Kind::OddLot) => "odd lot",
        Err(_) => "unknown",
    }
}

fn print_entry(rt: &HostRuntime, place: usize, e: &Entry) -> anyhow::Result<()> {
    let heap = rt.alloc();
    let group = e.group;
    let kind = kind_name(e.kind);
    let order_type = e.order_type;
    let first = character(e.order.first);
    let rest = packed(heap, e.order.rest)?;
    let broker = packed(heap, e.new_broker)?;
    let account = e.new_account;
    let quantity = show_number(heap, u64::from(e.quantity))?;
    let price = show_cents(
        heap,
        Cents {
            count: u64::from(e.price),
        },
    )?;
    let trade = e.trade_number;
    let running_quantity = show_number(heap, u64::from(e.running_quantity))?;
    let running_amount = show_cents(
        heap,
        Cents {
            count: e.running_amount,
        },
    )?;
    let type_quantity = show_number(heap, u64::from(e.type_quantity))?;
    let type_amount = show_cents(
        heap,
        Cents {
            count: e.type_amount,
        },
    )?;
    println!(rt;
        "{place:>5} {group:>5} {kind:>9} {order_type:>4} {first}{rest} {broker:>6} {account:0>7} {quantity:>9} {price:>10} {trade:0>8} {running_quantity:>16} {running_amount:>19} {type_quantity:>11} {type_amount:>19}"
    )?;
    Ok(())
}

// The entries of the sound blocks, from 0 on; each is read by its place, and shown with it: a chain of pairs would take more words
// than this loop. Here and below each `as` is between `u64` and `usize`, and keeps the value.
fn print_entries(rt: &HostRuntime, bytes: &[u8], entries: u64) -> anyhow::Result<()> {
    println!(rt; "{HEADING}")?;
    for i in 0..entries as usize {
        if let Some(e) = read_entry(bytes, i) {
            print_entry(rt, i, &e)?;
        }
    }
    Ok(())
}

// The first block that is not sound, and the test that it fails: one sentence.
#[derive(Clone, Copy)]
struct Unsound {
    block: u64,
    fault: Fault,
}

impl fmt::Display for Unsound {
    fn fmt<W: fmt::Write>(&self, f: &mut fmt::Formatter<W>) -> fmt::Result {
        let block = self.block;
        write!(f, "Block {block} is not sound: ")?;
        match self.fault {
            Fault::Count(count) => write!(
                f,
                "count: it says that it holds {count} entries, and at most 7 fit"
            ),
            Fault::Number(number) => write!(
                f,
                "number: it has number {number}, and {block} is expected"
            ),
            Fault::Checksum { sum, stored } => write!(
                f,
                "checksum: it has {stored}, and {sum} is expected"
            ),
            Fault::Unused(place) => write!(
                f,
                "unused byte: byte {place} of the block is past its entries and not zero"
            ),
            Fault::Filler(entry) => write!(
                f,
                "filler: entry {entry} of the block, from 0, has a filler that is not zero"
            ),
            Fault::Gap(held) => write!(
                f,
                "gap: it has entries, and the blocks before it are not full: they hold {held}"
            ),
        }
    }
}

// How many blocks are sound, of how many, and the bytes that belong to no block.
fn print_found(rt: &HostRuntime, found: Found, len: usize) -> anyhow::Result<()> {
    let heap = rt.alloc();
    let blocks = blocks_in(len);
    let sound = show_number(heap, found.blocks)?;
    let all = show_number(heap, blocks as u64)?;
    let entries = show_number(heap, found.entries)?;
    println!(rt; "Sound blocks: {sound} of {all}, entries: {entries}")?;
    let past = len.saturating_sub(blocks.saturating_mul(BLOCK_BYTES));
    if past > 0 {
        let bytes = show_number(heap, past as u64)?;
        println!(rt; "Bytes past the last block, not looked at: {bytes}")?;
    }
    Ok(())
}

fn tell(rt: &HostRuntime, bytes: &[u8]) -> anyhow::Result<()> {
    let found = inspect(bytes);
    print_found(rt, found, bytes.len())?;
    print_entries(rt, bytes, found.entries)?;
    match first_fault(bytes) {
        Some(fault) => {
            let unsound = Unsound {
                block: found.blocks,
                fault,
            };
            println!(rt; "{unsound}")?;
        }
        None => println!(rt; "All blocks are sound")?,
    }
    Ok(())
}

fn main(rt: HostRuntime) -> anyhow::Result<ExitCode> {
    let words: Vec<String> = env::args(&rt)?.collect(rt.alloc())?;
    let [_, name] = words.as_slice() else {
        eprintln!(rt; "{USAGE}")?;
        return Ok(ExitCode::FAILURE);
    };
    match fs::read(&rt, name.as_str()) {
        Ok(bytes) => {
            tell(&rt, bytes.as_slice())?;
            Ok(ExitCode::SUCCESS)
        }
        Err(e) => {
            eprintln!(rt; "{name:?}: the file cannot be read: {e}")?;
            Ok(ExitCode::FAILURE)
        }
    }
}
