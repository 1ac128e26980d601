// Lines of omnibus accounts, one after another in one day: order types, quantities and retentions.
use crate::told::{named, number_of, plain};
use book::Day;
use families::Omnibus;
use given::blank_behind;
use ledger::{Entry, Ledger, Table};
use lines::State;

// A line, and how many replies it has, or else the number of the ground on which it is refused.
#[derive(Clone, Copy)]
struct Step {
    what: &'static str,
    // up to the code; the rest is blank
    front: &'static [u8; 65],
    clock: u64,
    space: usize,
    answer: Result<usize, u8>,
}

#[rattlefmt::skip]
static STEPS: [Step; 12] = [
    Step { what: "order type 6", front: b"980199555512330  S020240102A0001990001900000001000000050000000061", clock: 150_000, space: 4600, answer: Ok(1) },
    Step { what: "to a domestic investor under a foreign stem", front: b"980199555511101  B020240102A0002989901200000001000000010000000001", clock: 150_000, space: 4600, answer: Err(15) },
    Step { what: "to a foreign investor", front: b"980199555511101  B020240102A0002990001900000001000000010000000001", clock: 150_000, space: 4600, answer: Ok(1) },
    Step { what: "10,000 units, in pieces of 499", front: b"980188555511101  B020240102A0003012345600010000000010000000000001", clock: 150_000, space: 4600, answer: Ok(21) },
    Step { what: "retains to another account", front: b"98019955551ZZZZZZ  20240102     995555200000000000000000000000001", clock: 150_000, space: 4600, answer: Err(15) },
    Step { what: "retains an account without groups", front: b"98019955559ZZZZZZ  20240102     995555900000000000000000000000001", clock: 150_000, space: 4600, answer: Err(27) },
    Step { what: "retains with room for one reply of two", front: b"98019955551ZZZZZZ  20240102     995555100000000000000000000000001", clock: 150_000, space: 399, answer: Err(24) },
    Step { what: "files at 18:59:59", front: b"980188555511101  B020240102A0004012345600000001000000001000000001", clock: 185_959, space: 400, answer: Err(11) },
    Step { what: "retains at 18:59:59, both totals of the unfinished group", front: b"98019955551ZZZZZZ  20240102     995555100000000000000000000000001", clock: 185_959, space: 400, answer: Ok(2) },
    Step { what: "retains once more", front: b"98019955551ZZZZZZ  20240102     995555100000000000000000000000001", clock: 150_000, space: 4600, answer: Err(12) },
    Step { what: "deletes in the complete group of the account", front: b"980199555511101  B020240102A0002990001900000001000000010000000002", clock: 150_000, space: 4600, answer: Err(12) },
    Step { what: "files for the other account", front: b"980188555511101  B020240102A0004012345600000001000000001000000001", clock: 150_000, space: 4600, answer: Ok(1) },
];

#[test]
fn accounts(rt: HostRuntime) {
    let mut entries = [Entry::default(); 30];
    let mut day: Day<Omnibus, Table<'_>> = Day::open(
        Table::new(&mut entries),
        b"9801",
        20_240_102,
        1,
    );
    // 2,010 shares sold for 100,500.00, and 1,000 bought for 10,000.00
    assert_eq!(rt;
        day.total(plain(b"9955551", b"2330  ", b"S", 0, 1000, 2, 1_000_000_000))
            .ok(),
        Some(0)
    );
    assert_eq!(rt;
        day.total(plain(b"9955551", b"2330  ", b"S", 2, 1000, 10, 5_000_000))
            .ok(),
        Some(0)
    );
    assert_eq!(rt;
        day.total(plain(b"9955551", b"1101  ", b"B", 0, 1000, 1, 100_000_000))
            .ok(),
        Some(1)
    );
    // 10,001 units at 1.00
    assert_eq!(rt;
        day.total(plain(
            b"8855551",
            b"1101  ",
            b"B",
            0,
            1000,
            10_001,
            100_010_000_000
        ))
        .ok(),
        Some(2)
    );
    for s in STEPS.iter() {
        assert!(rt; s.space <= 4600);
        let front = s.front;
        let line: [u8; 200] = blank_behind(front);
        let mut replies = [0; 4600];
        let answer = day.line(&line, s.clock, &mut replies[..s.space]);
        assert_eq!(rt; answer.map_err(u8::from), s.answer, "{}", s.what);
    }
    // the retention has sealed the account, and its group stands as if nothing had been filed
    assert_eq!(rt;
        number_of(day.total(plain(b"9955551", b"2454  ", b"B", 0, 1000, 1, 100_000_000))),
        12
    );
    match day.figures(named(b"9955551", b"2330  ", b"S")) {
        Some((shares, amount, State::Retained)) => {
            assert_eq!(rt; shares.count, 2010);
            assert_eq!(rt; amount.count, 10_050_000);
        }
        _ => panic!(rt; "a retained group"),
    }
    match day.figures(named(b"9955551", b"1101  ", b"B")) {
        Some((_, _, State::Complete)) => {}
        _ => panic!(rt; "a complete group"),
    }
    // the row of 1101, and 22 of the other account
    assert_eq!(rt; day.close().count(), 23);
}
