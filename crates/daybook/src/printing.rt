// What is printed of answers. The names stand here, since each program has its own words for what it prints.
use judge::Ground;
use ledger::Entry;
use lines::State;
use lots::{Cents, Shares};
use std::alloc::{AllocError, Global};
use std::io;

const DIGITS: &[u8; 16] = b"0123456789abcdef";

/// Bytes in lower case, two hexadecimal digits for each.
fn hex(heap: Global, bytes: &[u8]) -> Result<String, AllocError> {
    let mut text = String::new(heap);
    for byte in bytes {
        text.push(char::from(DIGITS[usize::from(*byte / 16)]))?;
        text.push(char::from(DIGITS[usize::from(*byte % 16)]))?;
    }
    Ok(text)
}

// A name, and bytes behind it where there are any.
fn print_bytes(rt: &HostRuntime, name: &str, bytes: &[u8]) -> io::Result<()> {
    if bytes.is_empty() {
        println!(rt; "{name}")?;
        return Ok(());
    }
    let digits = hex(rt.alloc(), bytes)?;
    println!(rt; "{name} {digits}")?;
    Ok(())
}

// A call that was refused, under its name.
fn print_refused(rt: &HostRuntime, name: &str, ground: Ground) -> io::Result<()> {
    let n = u8::from(ground);
    println!(rt; "{name} refused {n}")?;
    Ok(())
}

/// A total or a line that was accepted or refused.
pub fn print_answer(rt: &HostRuntime, name: &str, answer: Result<usize, Ground>) -> io::Result<()> {
    match answer {
        Ok(n) => {
            println!(rt; "{name} accepted {n}")?;
            Ok(())
        }
        Err(ground) => print_refused(rt, name, ground),
    }
}

/// The buffer that a call was given, as it is afterwards.
pub fn print_buffer(rt: &HostRuntime, buffer: &[u8]) -> io::Result<()> {
    print_bytes(rt, "buffer", buffer)
}

/// The bytes of a ledger in blocks, or that it has none.
pub fn print_image(rt: &HostRuntime, image: Option<&[u8]>) -> io::Result<()> {
    match image {
        Some(bytes) => print_bytes(rt, "image", bytes),
        None => {
            println!(rt; "image none")?;
            Ok(())
        }
    }
}

pub fn print_figures(rt: &HostRuntime, figures: Option<(Shares, Cents, State)>) -> io::Result<()> {
    match figures {
        Some((shares, amount, state)) => {
            let open_shares = shares.count;
            let open_amount = amount.count;
            let told = match state {
                State::Unfinished => "unfinished",
                State::Complete => "complete",
                State::Retained => "retained",
            };
            println!(rt; "figures {open_shares} {open_amount} {told}")?;
        }
        None => println!(rt; "figures none")?,
    }
    Ok(())
}

pub fn print_row(rt: &HostRuntime, answer: Result<(), Ground>) -> io::Result<()> {
    match answer {
        Ok(()) => {
            println!(rt; "row written")?;
            Ok(())
        }
        Err(ground) => print_refused(rt, "row", ground),
    }
}

/// An entry of a ledger: its order number and new broker as bytes, the rest as numbers.
pub fn print_entry(rt: &HostRuntime, e: &Entry) -> io::Result<()> {
    let heap = rt.alloc();
    let rest = e.order.rest.to_le_bytes();
    let order = hex(heap, &[e.order.first, rest[0], rest[1], rest[2], rest[3]])?;
    let broker = hex(heap, &e.new_broker.to_le_bytes())?;
    let group = e.group;
    let kind = e.kind;
    let order_type = e.order_type;
    let account = e.new_account;
    let quantity = e.quantity;
    let price = e.price;
    let trade = e.trade_number;
    let running_quantity = e.running_quantity;
    let running_amount = e.running_amount;
    let type_quantity = e.type_quantity;
    let type_amount = e.type_amount;
    println!(rt;
        "entry {group} {kind} {order_type} {order} {broker} {account} {quantity} {price} {trade} {running_quantity} {running_amount} {type_quantity} {type_amount}"
    )?;
    Ok(())
}
