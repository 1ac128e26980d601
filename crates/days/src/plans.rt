// Lines of a plan that are refused, each on one ground, beside the nearest that pass, where the table of grounds has no such pair.
use crate::told::{number_of, plain};
use book::Day;
use families::Plan;
use given::blank_behind;
use ledger::{Entry, Table};

// Two groups of account 8477771. In the first, 2330, 3,030 shares are open for 151,500.00, and one filing, Z0001, stands; in the
// other, 1101, 501,000 shares are open for 75,000,000.00. Where the day is opened on bad figures, nothing of this is taken.
fn prepare(day: &mut Day<Plan, Table<'_>>) {
    let _ = day.total(plain(b"8477771", b"2330  ", b"B", 0, 1000, 4, 2_000_000_000));
    let _ = day.total(plain(b"8477771", b"2330  ", b"B", 2, 1000, 30, 15_000_000));
    let _ = day.total(plain(b"8477771", b"1101  ", b"B", 0, 1000, 500, 250_000_000_000));
    let _ = day.total(plain(b"8477771", b"1101  ", b"B", 2, 1000, 1000, 500_000_000_000));
    let filing: [u8; 200] = blank_behind(
        b"980184777712330  B020240102Z0001980101234560000000100000005000000001",
    );
    let _ = day.line(&filing, 150_000, &mut [0; 200]);
}

#[derive(Clone, Copy)]
struct Line {
    what: &'static str,
    // up to the code; the rest is blank
    front: &'static [u8; 68],
    // 0 stands for a line that passes
    ground: u8,
}

#[rattlefmt::skip]
static LINES: [Line; 22] = [
    Line { what: "3 units for 150,010.00", front: b"980184777712330  B020240102A0001980101234560000000300000015001000001", ground: 0 },
    Line { what: "a letter in the account", front: b"9801847777A2330  B020240102A0001980101234560000000300000015001000001", ground: 6 },
    Line { what: "another account without a total", front: b"980184777722330  B020240102A0001980101234560000000300000015001000001", ground: 13 },
    Line { what: "a small letter in the order number", front: b"980184777712330  B020240102a0001980101234560000000300000015001000001", ground: 14 },
    Line { what: "to the house account itself", front: b"980184777712330  B020240102A0001980184777710000000300000015001000001", ground: 15 },
    Line { what: "to a house account of another stem", front: b"980184777712330  B020240102A0001980199555510000000300000015001000001", ground: 15 },
    Line { what: "to another domestic investor", front: b"980184777712330  B020240102A0001980198990120000000300000015001000001", ground: 0 },
    Line { what: "a small letter in the new broker", front: b"980184777712330  B020240102A0001980a01234560000000300000015001000001", ground: 15 },
    Line { what: "no unit", front: b"980184777711101  B020240102A0001980101234560000000000000005000000001", ground: 17 },
    Line { what: "one unit", front: b"980184777711101  B020240102A0001980101234560000000100000005000000001", ground: 0 },
    Line { what: "1,000 odd lots of a unit of 1,000", front: b"980184777711101  B220240102A0001980101234560000100000000005000000001", ground: 17 },
    Line { what: "999 odd lots", front: b"980184777711101  B220240102A0001980101234560000099900000004995000001", ground: 0 },
    Line { what: "a blank in the quantity", front: b"980184777712330  B020240102A00019801012345600000 0300000015001000001", ground: 17 },
    Line { what: "part of a cent", front: b"980184777712330  B020240102A0001980101234560000000300000015001000011", ground: 18 },
    Line { what: "for nothing", front: b"980184777711101  B220240102A0001980101234560000000100000000000000001", ground: 18 },
    Line { what: "for one cent", front: b"980184777711101  B220240102A0001980101234560000000100000000000001001", ground: 0 },
    Line { what: "4,000 shares of 3,030 open", front: b"980184777712330  B020240102A0001980101234560000000400000014800000001", ground: 20 },
    Line { what: "3,000 shares of 3,030 open", front: b"980184777712330  B020240102A0001980101234560000000300000014800000001", ground: 0 },
    Line { what: "151,510.00 of 151,500.00 open", front: b"980184777712330  B020240102A0001980101234560000000300000015151000001", ground: 21 },
    Line { what: "151,500.00 of 151,500.00 open", front: b"980184777712330  B020240102A0001980101234560000000300000015150000001", ground: 0 },
    Line { what: "deletes of a security without a total", front: b"980184777712331  B020240102A0001980101234560000000300000015001000002", ground: 13 },
    Line { what: "deletes whatever the other fields hold", front: b"980184777712330  B020240102*****           ************************2", ground: 0 },
];

// A refused line gets one reply, with the number of the ground in two digits; a passing one has 00 or 79 there.
#[test]
fn lines(rt: HostRuntime) {
    for c in LINES.iter() {
        let mut entries = [Entry::default(); 8];
        let mut day: Day<Plan, Table<'_>> = Day::open(
            Table::new(&mut entries),
            b"9801",
            20_240_102,
            1,
        );
        prepare(&mut day);
        let front = c.front;
        let line: [u8; 200] = blank_behind(front);
        let mut replies = [0xEEu8; 400];
        let got = number_of(day.line(&line, 150_000, &mut replies));
        assert_eq!(rt; got, c.ground, "{}", c.what);
        // The two digits are written out: the test is to stand on no reader of records.
        let told = replies[109] == b'0' + got / 10 && replies[110] == b'0' + got % 10;
        let open = got == 0 && replies[109] == b'7' && replies[110] == b'9';
        assert!(rt; told || open, "{}", c.what);
    }
}

// One filing of two pieces, behind one of one piece, and how it is taken.
#[derive(Clone, Copy)]
struct Call {
    what: &'static str,
    broker: &'static [u8],
    date: u64,
    first: u64,
    places: usize,
    length: usize,
    clock: u64,
    space: usize,
    // 0 stands for a call that passes
    ground: u8,
}

#[rattlefmt::skip]
static CALLS: [Call; 9] = [
    Call { what: "as it should be", broker: b"9801", date: 20_240_102, first: 0, places: 8, length: 200, clock: 150_000, space: 400, ground: 0 },
    Call { what: "a byte more", broker: b"9801", date: 20_240_102, first: 0, places: 8, length: 201, clock: 150_000, space: 400, ground: 1 },
    Call { what: "opened for a bad broker", broker: b"98 1", date: 20_240_102, first: 0, places: 8, length: 200, clock: 150_000, space: 400, ground: 3 },
    Call { what: "opened for a broker of three", broker: b"980", date: 20_240_102, first: 0, places: 8, length: 200, clock: 150_000, space: 400, ground: 3 },
    Call { what: "opened on a trade number of nine digits", broker: b"9801", date: 20_240_102, first: 100_000_000, places: 8, length: 200, clock: 150_000, space: 400, ground: 3 },
    Call { what: "60 minutes", broker: b"9801", date: 20_240_102, first: 0, places: 8, length: 200, clock: 156_000, space: 400, ground: 11 },
    Call { what: "the last trade number is 99,999,999", broker: b"9801", date: 20_240_102, first: 99_999_997, places: 8, length: 200, clock: 150_000, space: 400, ground: 0 },
    Call { what: "room for one reply alone", broker: b"9801", date: 20_240_102, first: 0, places: 8, length: 200, clock: 150_000, space: 200, ground: 24 },
    Call { what: "a lower ground is told", broker: b"9801", date: 20_240_102, first: 99_999_998, places: 2, length: 200, clock: 180_000, space: 200, ground: 11 },
];

#[test]
fn calls(rt: HostRuntime) {
    for c in CALLS.iter() {
        assert!(rt; c.places <= 8 && c.length <= 201 && c.space <= 400);
        let mut entries = [Entry::default(); 8];
        let table = Table::new(&mut entries[..c.places]);
        let mut day: Day<Plan, Table<'_>> = Day::open(table, c.broker, c.date, c.first);
        prepare(&mut day);
        let line: [u8; 201] = blank_behind(
            b"980184777712330  B020240102A0001980101234560000000300000015001000001",
        );
        let mut replies = [0; 400];
        let got = number_of(day.line(&line[..c.length], c.clock, &mut replies[..c.space]));
        assert_eq!(rt; got, c.ground, "{}", c.what);
    }
}
