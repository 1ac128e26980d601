// Rows of totals: those of the plan's example, and what is malformed in others.
use families::{Omnibus, Plan};
use forms::{BadField, read_total};
use lots::Kind;
use std::process::Abort;

// A row of the example's account, security and side.
fn check_total(rt: &impl Abort, row: &[u8], kind: Kind, quantity: u64, amount: u64) {
    let Ok(total) = read_total::<Plan>(row) else {
        panic!(rt; "a total is wanted");
    };
    assert_eq!(rt; total.group.account, 9_477_777);
    assert_eq!(rt; total.group.security, 0x2020_3033_3332);
    assert_eq!(rt; total.group.side, b'B');
    assert_eq!(rt; total.kind, kind);
    assert_eq!(rt; total.quantity, quantity);
    assert_eq!(rt; total.amount, amount);
}

// 10 units for 1,000,000 yuan, and 50 shares for 5,000 yuan, in ten-thousandths.
#[test]
fn example(rt: HostRuntime) {
    let board = b"101094777772330  B020170116000000100000010000000000                             ";
    check_total(&rt, board, Kind::BoardLot, 10, 10_000_000_000);
    let odd = b"101094777772330  B220170116000000500000000050000000                             ";
    check_total(&rt, odd, Kind::OddLot, 50, 50_000_000);
}

// A row, and its malformed field as each family reads it.
#[derive(Clone, Copy)]
struct Case {
    row: &'static [u8],
    plan: Option<BadField>,
    omnibus: Option<BadField>,
}

#[rattlefmt::skip]
static CASES: [Case; 35] = [
    // the example
    Case { row: b"101094777772330  B020170116000000100000010000000000                             ", plan: None, omnibus: Some(BadField::Account) },
    // an omnibus account
    Case { row: b"101099555562330  B020170116000000100000010000000000                             ", plan: Some(BadField::Account), omnibus: None },
    // the domestic accounts
    Case { row: b"101084777702330  B020170116000000100000010000000000                             ", plan: None, omnibus: Some(BadField::Account) },
    Case { row: b"101088555502330  B020170116000000100000010000000000                             ", plan: Some(BadField::Account), omnibus: None },
    // broker, date and filler are not judged
    Case { row: b"    94777772330  B0xxxxxxxx000000100000010000000000xxxxxxxxxxxxxxxxxxxxxxxxxxxxx", plan: None, omnibus: Some(BadField::Account) },
    // one byte less, one more, none
    Case { row: b"101094777772330  B020170116000000100000010000000000                            ", plan: Some(BadField::Length), omnibus: Some(BadField::Length) },
    Case { row: b"101094777772330  B020170116000000100000010000000000                              ", plan: Some(BadField::Length), omnibus: Some(BadField::Length) },
    Case { row: b"", plan: Some(BadField::Length), omnibus: Some(BadField::Length) },
    // a letter in the account, a blank, an investor's account
    Case { row: b"1010947777a2330  B020170116000000100000010000000000                             ", plan: Some(BadField::Account), omnibus: Some(BadField::Account) },
    Case { row: b"1010947777 2330  B020170116000000100000010000000000                             ", plan: Some(BadField::Account), omnibus: Some(BadField::Account) },
    Case { row: b"101099000192330  B020170116000000100000010000000000                             ", plan: Some(BadField::Account), omnibus: Some(BadField::Account) },
    // no security, a blank before it, a small letter, the mark of a retention
    Case { row: b"10109477777      B020170116000000100000010000000000                             ", plan: Some(BadField::Security), omnibus: Some(BadField::Account) },
    Case { row: b"10109477777 2330 B020170116000000100000010000000000                             ", plan: Some(BadField::Security), omnibus: Some(BadField::Account) },
    Case { row: b"101094777772330a B020170116000000100000010000000000                             ", plan: Some(BadField::Security), omnibus: Some(BadField::Account) },
    Case { row: b"10109477777ZZZZZZB020170116000000100000010000000000                             ", plan: Some(BadField::Security), omnibus: Some(BadField::Account) },
    Case { row: b"10109955556ZZZZZZB020170116000000100000010000000000                             ", plan: Some(BadField::Account), omnibus: Some(BadField::Security) },
    // a security of six characters
    Case { row: b"10109477777006208B020170116000000100000010000000000                             ", plan: None, omnibus: Some(BadField::Account) },
    // sold
    Case { row: b"101094777772330  S020170116000000100000010000000000                             ", plan: Some(BadField::Side), omnibus: Some(BadField::Account) },
    Case { row: b"101099555562330  S020170116000000100000010000000000                             ", plan: Some(BadField::Account), omnibus: None },
    // no side, a small letter
    Case { row: b"101094777772330   020170116000000100000010000000000                             ", plan: Some(BadField::Side), omnibus: Some(BadField::Account) },
    Case { row: b"101099555562330  b020170116000000100000010000000000                             ", plan: Some(BadField::Account), omnibus: Some(BadField::Side) },
    // kind 2 is good, 1 and a blank are not
    Case { row: b"101094777772330  B220170116000000100000010000000000                             ", plan: None, omnibus: Some(BadField::Account) },
    Case { row: b"101094777772330  B120170116000000100000010000000000                             ", plan: Some(BadField::Kind), omnibus: Some(BadField::Account) },
    Case { row: b"101099555562330  B 20170116000000100000010000000000                             ", plan: Some(BadField::Account), omnibus: Some(BadField::Kind) },
    // a blank, and what stands beside the digits, first and last in the quantity
    Case { row: b"101094777772330  B020170116 00000100000010000000000                             ", plan: Some(BadField::Quantity), omnibus: Some(BadField::Account) },
    Case { row: b"101094777772330  B0201701160000001/0000010000000000                             ", plan: Some(BadField::Quantity), omnibus: Some(BadField::Account) },
    Case { row: b"101099555562330  B020170116:00000100000010000000000                             ", plan: Some(BadField::Account), omnibus: Some(BadField::Quantity) },
    // the same in the amount
    Case { row: b"101094777772330  B02017011600000010 000010000000000                             ", plan: Some(BadField::Amount), omnibus: Some(BadField::Account) },
    Case { row: b"101094777772330  B02017011600000010000001000000000/                             ", plan: Some(BadField::Amount), omnibus: Some(BadField::Account) },
    Case { row: b"101099555562330  B02017011600000010:000010000000000                             ", plan: Some(BadField::Account), omnibus: Some(BadField::Amount) },
    // the largest figures
    Case { row: b"101094777772330  B020170116999999999999999999999999                             ", plan: None, omnibus: Some(BadField::Account) },
    // the first malformed field is told
    Case { row: b"10109477777      xx20170116xxxxxxxxxxxxxxxxxxxxxxxx                             ", plan: Some(BadField::Security), omnibus: Some(BadField::Account) },
    Case { row: b"101094777772330  xx20170116xxxxxxxxxxxxxxxxxxxxxxxx                             ", plan: Some(BadField::Side), omnibus: Some(BadField::Account) },
    Case { row: b"101094777772330  Bx20170116xxxxxxxxxxxxxxxxxxxxxxxx                             ", plan: Some(BadField::Kind), omnibus: Some(BadField::Account) },
    Case { row: b"101094777772330  B020170116xxxxxxxxxxxxxxxxxxxxxxxx                             ", plan: Some(BadField::Quantity), omnibus: Some(BadField::Account) },
];

// Every malformed field, beside the rows that are good.
#[test]
fn malformed(rt: HostRuntime) {
    for (i, c) in CASES.iter().enumerate() {
        assert_eq!(rt; read_total::<Plan>(c.row).err(), c.plan, "{i}");
        assert_eq!(rt; read_total::<Omnibus>(c.row).err(), c.omnibus, "{i}");
    }
}
