// One call on a day. A call's function takes the runtime and the day: a struct of both would only borrow them for one call.
// Each `as` is from `u64` to `usize`, which keeps the value.
ghost use Rattle.std.specs.Prelude.{◌≡◌, IfOk, OnOk, None, Some};
ghost use Rattle.families.specs.Parts.{group_by};
ghost use Rattle.book.specs.Calls.{after, run, total_row, line as line_call};
ghost use Rattle.transfer.specs.Transfers.{handed_outcome, handed_on, counts_after};
ghost use Rattle.daybook.specs.Asked.{asked, counted_by, buffer_of, total_call};

use crate::others::{print_inspection, print_split};
use crate::printing::{
    print_answer, print_buffer, print_entry, print_figures, print_image, print_row,
};
use crate::shown::Shown;
use book::Day;
use families::{Family, GroupFields};
use judge::PlainTotal;
use ledger::Ledger;
use script::{ByteWord, Call, GroupWords, TotalCall};
use std::alloc::{AllocError, Global};
use std::io;
use transfer::Transfer;

/// What every byte of a buffer is before a call.
pub const FILL: u8 = b'#';

// A buffer for a call.
fn buffer_of(heap: Global, room: u64) -> Result<Vec<u8>, AllocError>
    ensures { IfOk result (λ v. v.items ≡ buffer_of room) }
{
    vec![in heap; FILL; room as usize]
}

// The fields of a group, by their bytes.
fn fields<'a>(account: &'a Vec<u8>, security: &'a Vec<u8>, side: &'a Vec<u8>) -> GroupFields<'a>
    ensures { group_by result ≡ record { account = account.now.items; security = security.now.items; side = side.now.items } }
{
    GroupFields {
        account: account.as_slice(),
        security: security.as_slice(),
        side: side.as_slice(),
    }
}

// Each call's answer is printed under the call's name in a script: each program has its own words.
fn make_total<F: Family, L: Shown>(
    rt: &HostRuntime,
    day: &mut Day<F, L>,
    total: &TotalCall<'_>,
) -> io::Result<()>
    ensures { OnOk result (day.new ≡ after day.old (total_call total.now)) }
{
    let (account, security, side) = total.group.bytes(rt.alloc())?;
    let answer = day.total(PlainTotal {
        group: fields(&account, &security, &side),
        kind: total.kind,
        unit: total.unit,
        quantity: total.quantity,
        amount: total.amount,
    });
    print_answer(rt, "total", answer)
}

fn make_cai<F: Family, L: Shown>(
    rt: &HostRuntime,
    day: &mut Day<F, L>,
    unit: u64,
    bytes: &ByteWord<'_>,
) -> io::Result<()>
    ensures { OnOk result (day.new ≡ after day.old (total_row bytes.now unit)) }
{
    let given = bytes.bytes(rt.alloc())?;
    let answer = day.total_row(given.as_slice(), unit);
    print_answer(rt, "cai", answer)
}

fn make_line<F: Family, L: Shown>(
    rt: &HostRuntime,
    day: &mut Day<F, L>,
    clock: u64,
    room: u64,
    bytes: &ByteWord<'_>,
) -> io::Result<()>
    ensures { OnOk result (day.new ≡ after day.old (line_call bytes.now clock (buffer_of room))) }
{
    let heap = rt.alloc();
    let given = bytes.bytes(heap)?;
    let mut replies = buffer_of(heap, room)?;
    let answer = day.line(given.as_slice(), clock, replies.as_mut_slice());
    print_answer(rt, "line", answer)?;
    print_buffer(rt, replies.as_slice())
}

// A line that the transfer which runs hands on.
fn hand_line<F: Family, L: Shown>(
    rt: &HostRuntime,
    transfer: &mut Transfer<'_>,
    day: &mut Day<F, L>,
    clock: u64,
    room: u64,
    bytes: &ByteWord<'_>,
) -> io::Result<()>
    ensures after { OnOk result (day.new ≡ run day.old (handed_on transfer.old.counts.now bytes.now clock (buffer_of room))) }
    ensures counts { OnOk result (transfer.new.counts.now ≡ counts_after transfer.old.counts.now
        (handed_outcome day.old transfer.old.counts.now bytes.now clock room).answer) }
    ensures lender { transfer.new.counts.ghost_name ≡ transfer.old.counts.ghost_name }
{
    let heap = rt.alloc();
    let given = bytes.bytes(heap)?;
    let mut replies = buffer_of(heap, room)?;
    let answer = transfer.line(day, given.as_slice(), clock, replies.as_mut_slice());
    print_answer(rt, "line", answer)?;
    print_buffer(rt, replies.as_slice())
}

fn ask_figures<F: Family, L: Shown>(
    rt: &HostRuntime,
    day: &Day<F, L>,
    group: &GroupWords<'_>,
) -> io::Result<()> {
    let (account, security, side) = group.bytes(rt.alloc())?;
    print_figures(rt, day.figures(fields(&account, &security, &side)))
}

fn ask_verdict<F: Family, L: Shown>(rt: &HostRuntime, day: &Day<F, L>) -> io::Result<()> {
    let verdict = u8::from(day.verdict());
    println!(rt; "verdict {verdict}")?;
    Ok(())
}

fn ask_row<F: Family, L: Shown>(
    rt: &HostRuntime,
    day: &Day<F, L>,
    index: u64,
    room: u64,
) -> io::Result<()> {
    let mut buffer = buffer_of(rt.alloc(), room)?;
    let answer = day.row(index as usize, buffer.as_mut_slice());
    print_row(rt, answer)?;
    print_buffer(rt, buffer.as_slice())
}

fn show_rows<F: Family, L: Shown>(rt: &HostRuntime, day: &Day<F, L>) -> io::Result<()> {
    let ledger = day.ledger();
    let count = ledger.count();
    let capacity = ledger.capacity();
    println!(rt; "rows {count} {capacity}")?;
    for e in ledger.entries() {
        print_entry(rt, &e)?;
    }
    Ok(())
}

/// Makes a call on a day, and prints the answer. What opens a day, and what begins or ends a transfer, is left to the caller.
pub fn make_call<F: Family, L: Shown>(
    rt: &HostRuntime,
    day: &mut Day<F, L>,
    call: &Call<'_>,
) -> io::Result<()>
    ensures { OnOk result (day.new ≡ run day.old (asked None call.now)) }
{
    match call {
        Call::Open(_) | Call::Begin | Call::End => Ok(()),
        Call::Total(total) => make_total(rt, day, total),
        Call::Cai { unit, row } => make_cai(rt, day, *unit, row),
        Call::Line { clock, room, bytes } => make_line(rt, day, *clock, *room, bytes),
        Call::Figures(group) => ask_figures(rt, day, group),
        Call::Verdict => ask_verdict(rt, day),
        Call::Row { index, room } => ask_row(rt, day, *index, *room),
        Call::Rows => show_rows(rt, day),
        Call::Image => print_image(rt, day.ledger().image()),
        Call::Inspect { bytes } => print_inspection(rt, bytes),
        Call::Split {
            quantity,
            shares,
            amount,
        } => print_split(rt, *quantity, *shares, *amount),
    }
}

/// The same while a transfer runs, which hands on each line.
pub fn make_call_in<F: Family, L: Shown>(
    rt: &HostRuntime,
    transfer: &mut Transfer<'_>,
    day: &mut Day<F, L>,
    call: &Call<'_>,
) -> io::Result<()>
    ensures after { OnOk result (day.new ≡ run day.old (asked (Some transfer.old.counts.now) call.now)) }
    ensures counts { OnOk result (transfer.new.counts.now ≡ counted_by day.old call.now transfer.old.counts.now) }
    ensures lender { transfer.new.counts.ghost_name ≡ transfer.old.counts.ghost_name }
{
    match call {
        Call::Line { clock, room, bytes } => hand_line(rt, transfer, day, *clock, *room, bytes),
        _ => make_call(rt, day, call),
    }
}
