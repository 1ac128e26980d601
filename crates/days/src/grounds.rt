// Each ground for refusal, tried beside the nearest call that passes.
mod before;
mod calls;
mod table;

use crate::told::{number_of, plain};
use before::{omnibus, plan};
use book::Day;
use calls::{Before, Call, Side};
use families::Plan;
use given::blank_behind;
use ledger::{Entry, Table};
use std::process::Abort;
use table::CASES;
use transfer::{Counts, Transfer};

// files 3 units of 2330 for 150,000.00, and takes all board lots of 2330 out again
const FILING: &[u8; 68] = b"980184777712330  B020240102B0001980101234560000000300000015000000001";

const DELETION: &[u8; 68] = b"980184777712330  B020240102B0001980101234560000000300000015000000002";

// Hands on lines that are refused for their length, or lines that are taken, the last of which is a deletion.
fn hand_on(transfer: &mut Transfer<'_>, day: &mut Day<Plan, Table<'_>>, before: Before) {
    match before {
        Before::Refused(lines) => {
            for _ in 0..lines {
                let _ = transfer.line(day, b"", 150_000, &mut [0; 200]);
            }
        }
        Before::HandedOn(lines) => {
            let filing: [u8; 200] = blank_behind(FILING);
            let deletion: [u8; 200] = blank_behind(DELETION);
            for left in (0..lines).rev() {
                let line = if left % 2 == 0 { &deletion } else { &filing };
                let _ = transfer.line(day, line, 150_000, &mut [0; 200]);
            }
        }
        _ => {}
    }
}

// What comes of a line, straight or through a transfer.
fn tell_line(
    day: &mut Day<Plan, Table<'_>>,
    before: Before,
    line: &[u8],
    clock: u64,
    replies: &mut [u8],
) -> u8 {
    let mut counts = Counts::default();
    match before {
        Before::Refused(_) | Before::HandedOn(_) => {
            let mut transfer = Transfer::begin(&mut counts);
            hand_on(&mut transfer, day, before);
            number_of(transfer.line(day, line, clock, replies))
        }
        _ => number_of(day.line(line, clock, replies)),
    }
}

// The first reply to a refused line has the number of the ground as its error code, in two digits, that to an accepted one 00 or 79; on
// grounds 1, 2 and 33 there is none. The digits are written out: the test is to stand on no reader of records.
fn check_code(rt: &impl Abort, ground: u8, code: &[u8], what: &str) {
    let holds = match ground {
        0 => code == b"00".as_slice() || code == b"79".as_slice(),
        1 | 2 | 33 => code == [0, 0].as_slice(),
        _ => code == [b'0' + ground / 10, b'0' + ground % 10].as_slice(),
    };
    assert!(rt; holds, "{what}");
}

// The number of the ground on which the call of a side is refused, or 0.
fn told(rt: &impl Abort, side: &Side) -> u8 {
    let before = side.before;
    let mut entries = [Entry::default(); 32];
    let mut replies = [0; 6400];
    let places = &mut entries[..before.places().min(32)];
    match side.call {
        Call::Line {
            front,
            length,
            clock,
            space,
        } => {
            let line: [u8; 200] = blank_behind(front);
            let mut day = plan(places, before);
            let buffer = &mut replies[..space.min(6400)];
            let ground = tell_line(&mut day, before, &line[..length.min(200)], clock, buffer);
            check_code(rt, ground, &replies[109..111], side.what);
            ground
        }
        Call::OmnibusLine {
            front,
            length,
            clock,
            space,
        } => {
            let line: [u8; 200] = blank_behind(front);
            let mut day = omnibus(places, before);
            let buffer = &mut replies[..space.min(6400)];
            let ground = number_of(day.line(&line[..length.min(200)], clock, buffer));
            check_code(rt, ground, &replies[130..132], side.what);
            ground
        }
        Call::Total {
            security,
            kind,
            unit,
            quantity,
            amount,
        } => {
            let mut day = plan(places, before);
            number_of(day.total(plain(b"8477771", security, b"B", kind, unit, quantity, amount)))
        }
        Call::Row { index, space } => {
            let day = plan(places, before);
            number_of(day.row(index, &mut replies[..space.min(6400)]))
        }
    }
}

#[test]
fn refused(rt: HostRuntime) {
    for c in CASES.iter() {
        assert_eq!(rt; told(&rt, &c.refused), c.ground, "{}", c.refused.what);
    }
}

#[test]
fn passes(rt: HostRuntime) {
    for c in CASES.iter() {
        assert_eq!(rt; told(&rt, &c.passes), 0, "{}", c.passes.what);
    }
}

// Every ground from 1 to 33 has a case.
#[test]
fn every_ground(rt: HostRuntime) {
    for ground in 1..34u8 {
        assert!(rt; CASES.iter().any(|c| c.ground == ground), "{ground}");
    }
}
