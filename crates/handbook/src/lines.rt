// What lines tell by their length, their code and ZZZZZZ.
use crate::{omnibus, plan};
use families::{Family, Omnibus, Plan};
use forms::{NotTold, Told, tell};
use given::with_byte;

// What a line tells, without its parts, or why it tells nothing. It is a word, since `Told` has no value without its parts.
fn told<F: Family>(line: &[u8]) -> &'static str {
    match tell::<F>(line) {
        Ok(Told::Filing(_)) => "filing",
        Ok(Told::Deletion(_)) => "deletion",
        Ok(Told::Retention(_)) => "retention",
        Err(NotTold::Length) => "length",
        Err(NotTold::Code) => "code",
    }
}

// The length is looked at before the code.
#[test]
fn lengths(rt: HostRuntime) {
    let ones = [b'1'; 201];
    let threes = [b'3'; 201];
    for (len, wanted) in [
        (200, "filing"),
        (199, "length"),
        (201, "length"),
        (0, "length"),
    ] {
        assert_eq!(rt; told::<Plan>(&ones[0..len]), wanted);
        assert_eq!(rt; told::<Omnibus>(&ones[0..len]), wanted);
    }
    assert_eq!(rt; told::<Plan>(&threes), "length");
    assert_eq!(rt; told::<Omnibus>(&threes), "length");
}

// A line is blank but for a security of six equal letters, from byte 12 on, and a code at a place of its own.
#[derive(Clone, Copy)]
struct Case {
    letter: u8,
    code: u8,
    plan: &'static str,
    omnibus: &'static str,
}

// ZZZZZZ retains only in an omnibus account, and only with code 1.
#[rattlefmt::skip]
static CASES: [Case; 11] = [
    Case { letter: b'A', code: b'1', plan: "filing", omnibus: "filing" },
    Case { letter: b'A', code: b'2', plan: "deletion", omnibus: "deletion" },
    Case { letter: b'A', code: b'0', plan: "code", omnibus: "code" },
    Case { letter: b'A', code: b'3', plan: "code", omnibus: "code" },
    Case { letter: b'A', code: b' ', plan: "code", omnibus: "code" },
    Case { letter: b'Z', code: b'1', plan: "filing", omnibus: "retention" },
    Case { letter: b'Z', code: b'2', plan: "deletion", omnibus: "deletion" },
    Case { letter: b'Z', code: b'0', plan: "code", omnibus: "code" },
    Case { letter: b'Z', code: b'3', plan: "code", omnibus: "code" },
    Case { letter: b'Z', code: b' ', plan: "code", omnibus: "code" },
    Case { letter: b'z', code: b'1', plan: "filing", omnibus: "filing" },
];

fn line(c: &Case, place: usize) -> [u8; 200] {
    let mut line = [b' '; 200];
    line[11..17].fill(c.letter);
    if place >= 1 && place <= 200 {
        line[place - 1] = c.code;
    }
    line
}

// The code is byte 68 of a plan's line, and byte 65 of an omnibus account's. In the other's place it is none.
#[test]
fn codes(rt: HostRuntime) {
    for c in CASES.iter() {
        assert_eq!(rt; told::<Plan>(&line(c, 68)), c.plan);
        assert_eq!(rt; told::<Plan>(&line(c, 65)), "code");
        assert_eq!(rt; told::<Omnibus>(&line(c, 65)), c.omnibus);
        assert_eq!(rt; told::<Omnibus>(&line(c, 68)), "code");
    }
}

// Whether a line tells a filing, and each of its figures is read.
fn is_read<F: Family>(line: &[u8]) -> bool {
    let Ok(Told::Filing(parts)) = tell::<F>(line) else {
        return false;
    };
    let filed = F::filed(F::read(parts));
    let common = filed.common;
    common.order.is_some()
        && common.investor.is_some()
        && common.quantity.is_some()
        && common.amount.is_some()
        && filed.new_broker.is_some()
        && filed.order_type.is_some()
}

// A small letter spoils a filing anywhere from the order number, byte 28, to the code behind a plan's amount, byte 68, or behind an
// omnibus account's order type, byte 65, and nowhere else.
#[test]
fn small_letters(rt: HostRuntime) {
    for place in 0..200 {
        let read = is_read::<Plan>(&with_byte(plan::Z0003, place, b'a'));
        assert_eq!(rt; read, place < 27 || place >= 68, "{place}");
        let read = is_read::<Omnibus>(&with_byte(omnibus::Z0003, place, b'a'));
        assert_eq!(rt; read, place < 27 || place >= 65, "{place}");
    }
}
