// Totals that are refused, each on one ground, beside the nearest that pass, where the table of grounds has no such pair.
use crate::told::{named, number_of, plain};
use book::{Day, Verdict};
use families::Plan;
use given::blank_behind;
use ledger::{Entry, Table};

// A total, and the number of its group, or else that of the ground on which it is refused.
#[derive(Clone, Copy)]
struct Asked {
    what: &'static str,
    account: &'static [u8],
    security: &'static [u8],
    side: &'static [u8],
    kind: u8,
    unit: u64,
    quantity: u64,
    amount: u64,
    answer: Result<usize, u8>,
}

#[rattlefmt::skip]
static ASKED: [Asked; 16] = [
    Asked { what: "an account of an omnibus stem", account: b"8855551", security: b"2330  ", side: b"B", kind: 0, unit: 1000, quantity: 4, amount: 2_000_000_000, answer: Err(6) },
    Asked { what: "an account of six digits", account: b"847777", security: b"2330  ", side: b"B", kind: 0, unit: 1000, quantity: 4, amount: 2_000_000_000, answer: Err(6) },
    Asked { what: "the mark of a retention", account: b"8477771", security: b"ZZZZZZ", side: b"B", kind: 0, unit: 1000, quantity: 4, amount: 2_000_000_000, answer: Err(7) },
    Asked { what: "a blank before the security", account: b"8477771", security: b" 2330 ", side: b"B", kind: 0, unit: 1000, quantity: 4, amount: 2_000_000_000, answer: Err(7) },
    Asked { what: "a plan does not sell", account: b"8477771", security: b"2330  ", side: b"S", kind: 0, unit: 1000, quantity: 4, amount: 2_000_000_000, answer: Err(8) },
    Asked { what: "kind 1", account: b"8477771", security: b"2330  ", side: b"B", kind: 1, unit: 1000, quantity: 4, amount: 2_000_000_000, answer: Err(9) },
    Asked { what: "no unit", account: b"8477771", security: b"2330  ", side: b"B", kind: 0, unit: 1000, quantity: 0, amount: 2_000_000_000, answer: Err(28) },
    Asked { what: "100,000,000 odd lots", account: b"8477771", security: b"2330  ", side: b"B", kind: 2, unit: 1000, quantity: 100_000_000, amount: 2_000_000_000, answer: Err(28) },
    Asked { what: "part of a cent", account: b"8477771", security: b"2330  ", side: b"B", kind: 0, unit: 1000, quantity: 4, amount: 2_000_000_001, answer: Err(28) },
    Asked { what: "for nothing", account: b"8477771", security: b"2330  ", side: b"B", kind: 0, unit: 1000, quantity: 4, amount: 0, answer: Err(28) },
    Asked { what: "for 100,000,000,000,000 cents", account: b"8477771", security: b"2330  ", side: b"B", kind: 0, unit: 1000, quantity: 4, amount: 10_000_000_000_000_000, answer: Err(28) },
    Asked { what: "4 units for 200,000.00", account: b"8477771", security: b"2330  ", side: b"B", kind: 0, unit: 1000, quantity: 4, amount: 2_000_000_000, answer: Ok(0) },
    Asked { what: "30 odd lots for 1,500.00", account: b"8477771", security: b"2330  ", side: b"B", kind: 2, unit: 1000, quantity: 30, amount: 15_000_000, answer: Ok(0) },
    Asked { what: "99,999,000 shares", account: b"9477771", security: b"2330  ", side: b"B", kind: 0, unit: 1000, quantity: 99_999, amount: 100, answer: Ok(1) },
    Asked { what: "together 100,000,000 shares", account: b"9477771", security: b"2330  ", side: b"B", kind: 2, unit: 1000, quantity: 1000, amount: 100, answer: Err(30) },
    Asked { what: "together 99,999,999 shares", account: b"9477771", security: b"2330  ", side: b"B", kind: 2, unit: 1000, quantity: 999, amount: 100, answer: Ok(1) },
];

#[test]
fn totals(rt: HostRuntime) {
    let mut entries = [Entry::default(); 1];
    let mut day: Day<Plan, Table<'_>> = Day::open(Table::new(&mut entries), b"9801", 20_240_102, 1);
    assert_eq!(rt; day.verdict(), Verdict::NoGroups);
    for a in ASKED.iter() {
        let answer = day.total(plain(
            a.account, a.security, a.side, a.kind, a.unit, a.quantity, a.amount,
        ));
        assert_eq!(rt; answer.map_err(u8::from), a.answer, "{}", a.what);
    }
    assert_eq!(rt; day.verdict(), Verdict::Unfinished);
}

// A day that was opened on a trade number of nine digits takes no total.
#[test]
fn not_opened(rt: HostRuntime) {
    let mut entries = [Entry::default(); 1];
    let table = Table::new(&mut entries);
    let mut day: Day<Plan, Table<'_>> = Day::open(table, b"9801", 20_240_102, 100_000_000);
    let answer = day.total(plain(b"8477771", b"2330  ", b"B", 0, 1000, 4, 2_000_000_000));
    assert_eq!(rt; number_of(answer), 3);
    assert_eq!(rt; day.verdict(), Verdict::NoGroups);
}

// A day has 64 groups, each of a security that is named by the group's number, and then takes totals of these alone.
#[test]
fn groups(rt: HostRuntime) {
    let mut entries = [Entry::default(); 1];
    let mut day: Day<Plan, Table<'_>> = Day::open(Table::new(&mut entries), b"9801", 20_240_102, 1);
    for n in 0..64u8 {
        // Two digits and four blanks by hand: a formatted text would have to be copied into six bytes.
        let security = [b'0' + n / 10, b'0' + n % 10, b' ', b' ', b' ', b' '];
        let answer = day.total(plain(b"8477771", &security, b"B", 0, 1000, 1, 100_000));
        assert_eq!(rt; answer.ok(), Some(usize::from(n)));
    }
    assert_eq!(rt;
        number_of(day.total(plain(b"8477771", b"64    ", b"B", 0, 1000, 1, 100_000))),
        31
    );
    assert_eq!(rt;
        day.total(plain(b"8477771", b"63    ", b"B", 2, 1000, 1, 100))
            .ok(),
        Some(63)
    );
}

// A row of totals, up to the amount; the rest is blank.
#[derive(Clone, Copy)]
struct Row {
    what: &'static str,
    front: &'static [u8; 51],
    length: usize,
    // 0 stands for a row that passes
    ground: u8,
}

#[rattlefmt::skip]
static ROWS: [Row; 8] = [
    Row { what: "a byte less", front: b"980184777712330  B020240102000000040000002000000000", length: 79, ground: 1 },
    Row { what: "a byte more", front: b"980184777712330  B020240102000000040000002000000000", length: 81, ground: 1 },
    Row { what: "another broker", front: b"980284777712330  B020240102000000040000002000000000", length: 80, ground: 5 },
    Row { what: "the next day", front: b"980184777712330  B020240103000000040000002000000000", length: 80, ground: 10 },
    Row { what: "a letter in the quantity", front: b"980184777712330  B0202401020000000A0000002000000000", length: 80, ground: 28 },
    Row { what: "a letter in the amount", front: b"980184777712330  B02024010200000004000000200000000A", length: 80, ground: 28 },
    Row { what: "4 units for 200,000.00", front: b"980184777712330  B020240102000000040000002000000000", length: 80, ground: 0 },
    Row { what: "the same again", front: b"980184777712330  B020240102000000040000002000000000", length: 80, ground: 29 },
];

#[test]
fn rows(rt: HostRuntime) {
    let mut entries = [Entry::default(); 1];
    let mut day: Day<Plan, Table<'_>> = Day::open(Table::new(&mut entries), b"9801", 20_240_102, 1);
    for r in ROWS.iter() {
        assert!(rt; r.length <= 81);
        let front = r.front;
        let row: [u8; 81] = blank_behind(front);
        assert_eq!(rt;
            number_of(day.total_row(&row[..r.length], 1000)),
            r.ground,
            "{}",
            r.what
        );
    }
    match day.figures(named(b"8477771", b"2330  ", b"B")) {
        Some((shares, amount, _)) => {
            assert_eq!(rt; shares.count, 4000);
            assert_eq!(rt; amount.count, 20_000_000);
        }
        None => panic!(rt; "a group"),
    }
}
