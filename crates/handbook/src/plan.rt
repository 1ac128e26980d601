// The example of a plan: account 9477777 bought 10 units of 2330 for 1,000,000 yuan and 50 shares for 5,000 yuan, all at 100
// yuan, and files 9 units and 1,050 shares. The running figures of odd lots are 600, then 430 and 20 more.
use crate::records::{
    Deletion, Filing, Piece, Repeated, Says, check_deletions, check_filings, check_piece,
    check_repeated,
};
use families::{Form, Plan};
use forms::{GroupName, Heading, NotTold, Row, Told, put_forms, put_forms_from, tell};
use ledger::{Entry, OrderNumber};

pub(crate) const Z0003: &[u8; 200] =
    b"101094777772330  B020170116Z0003101099000190000000900000090000000001                                                                                                                                    ";

const Z0004: &[u8; 200] =
    b"101094777772330  B220170116Z0004101099000190000060000000006000000001                                                                                                                                    ";

const Z0005: &[u8; 200] =
    b"101094777772330  B220170116Z0005101099000350000043000000004300000001                                                                                                                                    ";

const Z0006: &[u8; 200] =
    b"101094777772330  B220170116Z0006101099899770000002000000000200000001                                                                                                                                    ";

#[rattlefmt::skip]
static FILINGS: [Filing; 4] = [
    Filing {
        line: Z0003, security: b"2330  ", side: b"B", kind: b"0", order: b"Z0003", new_broker: b"1010",
        new_account: b"9900019", quantity: b"00000009", amount: b"0000009000000000", order_type: b"",
        says: Says {
            order: OrderNumber { first: b'Z', rest: 0x3330_3030 }, new_broker: 0x3031_3031, new_account: 9_900_019,
            quantity: 9, amount: 900_000, order_type: 0,
        },
    },
    Filing {
        line: Z0004, security: b"2330  ", side: b"B", kind: b"2", order: b"Z0004", new_broker: b"1010",
        new_account: b"9900019", quantity: b"00000600", amount: b"0000000600000000", order_type: b"",
        says: Says {
            order: OrderNumber { first: b'Z', rest: 0x3430_3030 }, new_broker: 0x3031_3031, new_account: 9_900_019,
            quantity: 600, amount: 60_000, order_type: 0,
        },
    },
    Filing {
        line: Z0005, security: b"2330  ", side: b"B", kind: b"2", order: b"Z0005", new_broker: b"1010",
        new_account: b"9900035", quantity: b"00000430", amount: b"0000000430000000", order_type: b"",
        says: Says {
            order: OrderNumber { first: b'Z', rest: 0x3530_3030 }, new_broker: 0x3031_3031, new_account: 9_900_035,
            quantity: 430, amount: 43_000, order_type: 0,
        },
    },
    Filing {
        line: Z0006, security: b"2330  ", side: b"B", kind: b"2", order: b"Z0006", new_broker: b"1010",
        new_account: b"9989977", quantity: b"00000020", amount: b"0000000020000000", order_type: b"",
        says: Says {
            order: OrderNumber { first: b'Z', rest: 0x3630_3030 }, new_broker: 0x3031_3031, new_account: 9_989_977,
            quantity: 20, amount: 2000, order_type: 0,
        },
    },
];

#[test]
fn filings(rt: HostRuntime) {
    check_filings::<Plan>(&rt, &FILINGS, b"9477777", b"20170116");
}

const HEADING: Heading = Heading {
    broker: 0x3031_3031,
    date: 20_170_116,
    group: GroupName {
        account: 9_477_777,
        security: 0x2020_3033_3332,
        side: b'B',
    },
};

#[rattlefmt::skip]
static PIECES: [Piece; 4] = [
    Piece {
        line: Z0003,
        reply: b"101094777772330  B020170116Z00031010990001900000009000000900000000019300001000100000000000009000000900000000079                                                                                         ",
        row: b"101094777772330  B020170116Z0003930000101010990001900000009001000000000000090000009000000000                                                          ",
        heading: HEADING, security: b"2330  ", side: b"B", order: b"Z0003", new_broker: b"1010",
        entry: Entry {
            group: 0, kind: 0, order_type: 0, order: OrderNumber { first: b'Z', rest: 0x3330_3030 },
            new_broker: 0x3031_3031, new_account: 9_900_019, quantity: 9, price: 10_000, trade_number: 93_000_010,
            running_quantity: 9, running_amount: 90_000_000, type_quantity: 0, type_amount: 0,
        },
        amount: 90_000_000, code: 79,
    },
    Piece {
        line: Z0004,
        reply: b"101094777772330  B220170116Z00041010990001900000600000000060000000019300001100100000000000600000000060000000079                                                                                         ",
        row: b"101094777772330  B220170116Z0004930000111010990001900000600001000000000006000000000600000000                                                          ",
        heading: HEADING, security: b"2330  ", side: b"B", order: b"Z0004", new_broker: b"1010",
        entry: Entry {
            group: 0, kind: 2, order_type: 0, order: OrderNumber { first: b'Z', rest: 0x3430_3030 },
            new_broker: 0x3031_3031, new_account: 9_900_019, quantity: 600, price: 10_000, trade_number: 93_000_011,
            running_quantity: 600, running_amount: 6_000_000, type_quantity: 0, type_amount: 0,
        },
        amount: 6_000_000, code: 79,
    },
    Piece {
        line: Z0005,
        reply: b"101094777772330  B220170116Z00051010990003500000430000000043000000019300001200100000000001030000000103000000079                                                                                         ",
        row: b"101094777772330  B220170116Z0005930000121010990003500000430001000000000010300000001030000000                                                          ",
        heading: HEADING, security: b"2330  ", side: b"B", order: b"Z0005", new_broker: b"1010",
        entry: Entry {
            group: 0, kind: 2, order_type: 0, order: OrderNumber { first: b'Z', rest: 0x3530_3030 },
            new_broker: 0x3031_3031, new_account: 9_900_035, quantity: 430, price: 10_000, trade_number: 93_000_012,
            running_quantity: 1030, running_amount: 10_300_000, type_quantity: 0, type_amount: 0,
        },
        amount: 4_300_000, code: 79,
    },
    Piece {
        line: Z0006,
        reply: b"101094777772330  B220170116Z00061010998997700000020000000002000000019300001300100000000001050000000105000000000                                                                                         ",
        row: b"101094777772330  B220170116Z0006930000131010998997700000020001000000000010500000001050000000                                                          ",
        heading: HEADING, security: b"2330  ", side: b"B", order: b"Z0006", new_broker: b"1010",
        entry: Entry {
            group: 0, kind: 2, order_type: 0, order: OrderNumber { first: b'Z', rest: 0x3630_3030 },
            new_broker: 0x3031_3031, new_account: 9_989_977, quantity: 20, price: 10_000, trade_number: 93_000_013,
            running_quantity: 1050, running_amount: 10_500_000, type_quantity: 0, type_amount: 0,
        },
        amount: 200_000, code: 0,
    },
];

// Rows one behind another are the rows in order, and what is behind the last is left.
#[test]
fn rows_in_order(rt: HostRuntime) {
    let rows = PIECES.iter().map(|p| Row {
        heading: HEADING,
        entry: p.entry,
    });
    let mut bytes = [0xEEu8; 650];
    put_forms_from::<Plan, Row, _>(&mut bytes, Form::Row, rows);
    let (written, rest) = bytes.as_chunks::<150>();
    assert_eq!(rt; written.len(), PIECES.len());
    for (row, p) in written.iter().zip(PIECES.iter()) {
        assert_eq!(rt; row, p.row);
    }
    assert_eq!(rt; rest, [0xEE; 50].as_slice());
}

// The same of a slice of rows.
#[test]
fn rows_of_a_slice(rt: HostRuntime) {
    let pieces = &PIECES;
    let rows = [
        Row {
            heading: HEADING,
            entry: pieces[0].entry,
        },
        Row {
            heading: HEADING,
            entry: pieces[1].entry,
        },
        Row {
            heading: HEADING,
            entry: pieces[2].entry,
        },
        Row {
            heading: HEADING,
            entry: pieces[3].entry,
        },
    ];
    let mut bytes = [0xEEu8; 650];
    put_forms::<Plan, Row>(&mut bytes, Form::Row, &rows);
    assert_eq!(rt; &bytes[0..150], pieces[0].row.as_slice());
    assert_eq!(rt; &bytes[150..300], pieces[1].row.as_slice());
    assert_eq!(rt; &bytes[300..450], pieces[2].row.as_slice());
    assert_eq!(rt; &bytes[450..600], pieces[3].row.as_slice());
    assert_eq!(rt; &bytes[600..650], [0xEEu8; 50].as_slice());
}

// 79 until the last piece, which completes the group.
#[test]
fn replies_and_rows(rt: HostRuntime) {
    for p in PIECES.iter() {
        check_piece::<Plan>(&rt, p);
    }
}

const DELETE_BOARD: &[u8; 200] =
    b"101094777772330  B020170116         00000000000000000000000000000002                                                                                                                                    ";

const DELETE_ODD: &[u8; 200] =
    b"101094777772330  B220170116         00000000000000000000000000000002                                                                                                                                    ";

const TAILED: &[u8; 200] =
    b"101094777772330  B220170116Z0005101099000350000043000000004300000001xxxxxxxxxxxxxxxxxxxxxxxxxxxxxxxxxxxxxxxxxxxxxxxxxxxxxxxxxxxxxxxxxxxxxxxxxxxxxxxxxxxxxxxxxxxxxxxxxxxxxxxxxxxxxxxxxxxxxxxxxxxxxxxxxxxx";

const WRONG_CODE: &[u8; 200] =
    b"101094777772330  B220170116Z0006101099899770000002000000000200000003                                                                                                                                    ";

#[rattlefmt::skip]
static DELETIONS: [Deletion; 2] = [
    Deletion {
        security: b"2330  ", kind: b"0",
        repeated: Repeated {
            line: DELETE_BOARD, code: 0,
            reply: b"101094777772330  B020170116         000000000000000000000000000000020000000000000000000000000000000000000000000                                                                                         ",
        },
    },
    Deletion {
        security: b"2330  ", kind: b"2",
        repeated: Repeated {
            line: DELETE_ODD, code: 0,
            reply: b"101094777772330  B220170116         000000000000000000000000000000020000000000000000000000000000000000000000000                                                                                         ",
        },
    },
];

// Numbers that a deletion does not use are zeros, and texts blanks, in its line as in its reply.
#[test]
fn deletions(rt: HostRuntime) {
    check_deletions::<Plan>(&rt, &DELETIONS, b"9477777", b"20170116");
}

#[rattlefmt::skip]
static REFUSALS: [Repeated; 3] = [
    // a number of one digit
    Repeated {
        line: Z0003, code: 8,
        reply: b"101094777772330  B020170116Z00031010990001900000009000000900000000010000000000000000000000000000000000000000008                                                                                         ",
    },
    // what stands behind the code is not repeated
    Repeated {
        line: TAILED, code: 66,
        reply: b"101094777772330  B220170116Z00051010990003500000430000000043000000010000000000000000000000000000000000000000066                                                                                         ",
    },
    // a wrong code is
    Repeated {
        line: WRONG_CODE, code: 40,
        reply: b"101094777772330  B220170116Z00061010998997700000020000000002000000030000000000000000000000000000000000000000040                                                                                         ",
    },
];

// A refusal's reply repeats the line up to its code, with zeros in the answered numbers.
#[test]
fn refusals(rt: HostRuntime) {
    assert!(rt; matches!(tell::<Plan>(TAILED), Ok(Told::Filing(_))));
    assert!(rt; matches!(tell::<Plan>(WRONG_CODE), Err(NotTold::Code)));
    for r in REFUSALS.iter() {
        check_repeated::<Plan>(&rt, r);
    }
}
