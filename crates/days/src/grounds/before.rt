// The days on which the calls are made, of broker 9801.
use crate::grounds::calls::Before;
use crate::told::plain;
use book::Day;
use families::{Omnibus, Plan};
use given::blank_behind;
use ledger::{Entry, Table};

/// A plan's day of account 8477771. Open are 3,030 shares of 2330 for 151,500.00, where one unit was filed as Z0001, 501,000 of 1101 for
/// 25,200,000.00, 200 of 0050 for 2,000.00 at 100 to a unit, and 31 of 2454 for 1,550.00; 5347 has one share, and 6505 ten cents, less than
/// more than a group can have.
pub(crate) fn plan<'a>(entries: &'a mut [Entry], before: Before) -> Day<Plan, Table<'a>> {
    let mut day: Day<Plan, Table<'a>> = Day::open(
        Table::new(entries),
        b"9801",
        before.date(),
        before.first(),
    );
    let _ = day.total(plain(b"8477771", b"2330  ", b"B", 0, 1000, 4, 2_000_000_000));
    let _ = day.total(plain(b"8477771", b"2330  ", b"B", 2, 1000, 30, 15_000_000));
    let _ = day.total(plain(b"8477771", b"1101  ", b"B", 0, 1000, 500, 250_000_000_000));
    let _ = day.total(plain(b"8477771", b"1101  ", b"B", 2, 1000, 1000, 2_000_000_000));
    let _ = day.total(plain(b"8477771", b"0050  ", b"B", 2, 100, 200, 20_000_000));
    let _ = day.total(plain(b"8477771", b"2454  ", b"B", 2, 1000, 31, 15_500_000));
    let _ = day.total(plain(b"8477771", b"5347  ", b"B", 0, 1, 99_999_998, 10_000));
    let _ = day.total(plain(b"8477771", b"6505  ", b"B", 0, 1, 1, 9_999_999_999_999_000));
    if let Before::Groups(groups) = before {
        for n in 6..groups {
            let security = [b'A', b'0' + n / 10 % 10, b'0' + n % 10, b' ', b' ', b' '];
            let _ = day.total(plain(b"8477771", &security, b"B", 0, 1000, 1, 1_000_000));
        }
    }
    let filing: [u8; 200] = blank_behind(
        b"980184777712330  B020240102Z0001980101234560000000100000005000000001",
    );
    let _ = day.line(&filing, 150_000, &mut [0; 200]);
    day
}

/// An omnibus account's day. Account 9955551 has 10,001 units of 2330 open for 500,050,000.00, 8855551 one unit for 50,000.00, and the one
/// unit of 9955552 is filed, so that its group is complete.
pub(crate) fn omnibus<'a>(entries: &'a mut [Entry], before: Before) -> Day<Omnibus, Table<'a>> {
    let mut day: Day<Omnibus, Table<'a>> = Day::open(
        Table::new(entries),
        b"9801",
        before.date(),
        before.first(),
    );
    let _ = day.total(plain(
        b"9955551",
        b"2330  ",
        b"B",
        0,
        1000,
        10_001,
        5_000_500_000_000,
    ));
    let _ = day.total(plain(b"8855551", b"2330  ", b"B", 0, 1000, 1, 500_000_000));
    let _ = day.total(plain(b"9955552", b"2330  ", b"B", 0, 1000, 1, 500_000_000));
    let filing: [u8; 200] = blank_behind(
        b"980199555522330  B020240102Z0001990001900000001000000050000000001",
    );
    let _ = day.line(&filing, 150_000, &mut [0; 200]);
    if let Before::Retained = before {
        let retention: [u8; 200] = blank_behind(
            b"98019955551ZZZZZZB020240102     995555100000000000000000000000001",
        );
        let _ = day.line(&retention, 150_000, &mut [0; 200]);
    }
    day
}
