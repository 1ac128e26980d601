// The example of an omnibus account: 9955556 bought 11 units of 1101 for 131,360 yuan, sold 20 units of 2330 for 610,000
// yuan, 5 of them of order type 0 and 15 of order type 5, and bought 62 shares of 3010 as odd lots for 5,454 yuan. A unit
// holds 1,000 shares. Of what is filed at an uneven price the lower price comes first:
// - 6 units for 68,860 are 2 at 11.47 (22,940) and 4 at 11.48 (45,920)
// - 16 shares for 1,413 are 12 at 88.31 (1,059.72) and 4 at 88.32 (353.28)
use crate::records::{
    Deletion, Filing, Piece, Repeated, Says, check_deletions, check_filings, check_piece,
    check_repeated, check_written,
};
use families::{Form, Omnibus};
use forms::{GroupName, Heading, Retained, Told, field, number, tell};
use layout::Item;
use ledger::{Entry, OrderNumber};
use lots::{Cents, Kind};
use std::process::Abort;

const Z0001: &[u8; 200] =
    b"101099555561101  B020060801Z0001990001900000006000000068860000001                                                                                                                                       ";

const Z0002: &[u8; 200] =
    b"101099555561101  B020060801Z0002990002200000005000000062500000001                                                                                                                                       ";

pub(crate) const Z0003: &[u8; 200] =
    b"101099555562330  S020060801Z0003990003500000005000000152500000001                                                                                                                                       ";

const Z0004: &[u8; 200] =
    b"101099555562330  S020060801Z0004990004800000015000000457500000051                                                                                                                                       ";

const Z6001: &[u8; 200] =
    b"101099555563010  B220060801Z6001990001900000016000000001413000001                                                                                                                                       ";

const Z6002: &[u8; 200] =
    b"101099555563010  B220060801Z6002990002200000016000000001413000001                                                                                                                                       ";

const Z6003: &[u8; 200] =
    b"101099555563010  B220060801Z6003990003500000030000000002628000001                                                                                                                                       ";

// In place of a new broker stand four blanks.
const NO_BROKER: u32 = 0x2020_2020;

#[rattlefmt::skip]
static FILINGS: [Filing; 7] = [
    Filing {
        line: Z0001, security: b"1101  ", side: b"B", kind: b"0", order: b"Z0001", new_broker: b"",
        new_account: b"9900019", quantity: b"00000006", amount: b"0000000688600000", order_type: b"0",
        says: Says {
            order: OrderNumber { first: b'Z', rest: 0x3130_3030 }, new_broker: NO_BROKER, new_account: 9_900_019,
            quantity: 6, amount: 68_860, order_type: 0,
        },
    },
    Filing {
        line: Z0002, security: b"1101  ", side: b"B", kind: b"0", order: b"Z0002", new_broker: b"",
        new_account: b"9900022", quantity: b"00000005", amount: b"0000000625000000", order_type: b"0",
        says: Says {
            order: OrderNumber { first: b'Z', rest: 0x3230_3030 }, new_broker: NO_BROKER, new_account: 9_900_022,
            quantity: 5, amount: 62_500, order_type: 0,
        },
    },
    Filing {
        line: Z0003, security: b"2330  ", side: b"S", kind: b"0", order: b"Z0003", new_broker: b"",
        new_account: b"9900035", quantity: b"00000005", amount: b"0000001525000000", order_type: b"0",
        says: Says {
            order: OrderNumber { first: b'Z', rest: 0x3330_3030 }, new_broker: NO_BROKER, new_account: 9_900_035,
            quantity: 5, amount: 152_500, order_type: 0,
        },
    },
    Filing {
        line: Z0004, security: b"2330  ", side: b"S", kind: b"0", order: b"Z0004", new_broker: b"",
        new_account: b"9900048", quantity: b"00000015", amount: b"0000004575000000", order_type: b"5",
        says: Says {
            order: OrderNumber { first: b'Z', rest: 0x3430_3030 }, new_broker: NO_BROKER, new_account: 9_900_048,
            quantity: 15, amount: 457_500, order_type: 5,
        },
    },
    Filing {
        line: Z6001, security: b"3010  ", side: b"B", kind: b"2", order: b"Z6001", new_broker: b"",
        new_account: b"9900019", quantity: b"00000016", amount: b"0000000014130000", order_type: b"0",
        says: Says {
            order: OrderNumber { first: b'Z', rest: 0x3130_3036 }, new_broker: NO_BROKER, new_account: 9_900_019,
            quantity: 16, amount: 1413, order_type: 0,
        },
    },
    Filing {
        line: Z6002, security: b"3010  ", side: b"B", kind: b"2", order: b"Z6002", new_broker: b"",
        new_account: b"9900022", quantity: b"00000016", amount: b"0000000014130000", order_type: b"0",
        says: Says {
            order: OrderNumber { first: b'Z', rest: 0x3230_3036 }, new_broker: NO_BROKER, new_account: 9_900_022,
            quantity: 16, amount: 1413, order_type: 0,
        },
    },
    Filing {
        line: Z6003, security: b"3010  ", side: b"B", kind: b"2", order: b"Z6003", new_broker: b"",
        new_account: b"9900035", quantity: b"00000030", amount: b"0000000026280000", order_type: b"0",
        says: Says {
            order: OrderNumber { first: b'Z', rest: 0x3330_3036 }, new_broker: NO_BROKER, new_account: 9_900_035,
            quantity: 30, amount: 2628, order_type: 0,
        },
    },
];

#[test]
fn filings(rt: HostRuntime) {
    check_filings::<Omnibus>(&rt, &FILINGS, b"9955556", b"20060801");
}

const BOUGHT_1101: Heading = Heading {
    broker: 0x3031_3031,
    date: 20_060_801,
    group: GroupName {
        account: 9_955_556,
        security: 0x2020_3130_3131,
        side: b'B',
    },
};

const SOLD_2330: Heading = Heading {
    broker: 0x3031_3031,
    date: 20_060_801,
    group: GroupName {
        account: 9_955_556,
        security: 0x2020_3033_3332,
        side: b'S',
    },
};

const BOUGHT_3010: Heading = Heading {
    broker: 0x3031_3031,
    date: 20_060_801,
    group: GroupName {
        account: 9_955_556,
        security: 0x2020_3031_3033,
        side: b'B',
    },
};

#[rattlefmt::skip]
static PIECES: [Piece; 10] = [
    Piece {
        line: Z0001,
        reply: b"101099555561101  B020060801Z00019900019000000020000000229400000019000000000011470000000002000000022940000000000002000000022940000079                                                                    ",
        row: b"101099555561101  B020060801Z0001900000009900019000000020001147000000000020000000229400000000000020000000229400000                                     ",
        heading: BOUGHT_1101, security: b"1101  ", side: b"B", order: b"Z0001", new_broker: b"",
        entry: Entry {
            group: 0, kind: 0, order_type: 0, order: OrderNumber { first: b'Z', rest: 0x3130_3030 },
            new_broker: NO_BROKER, new_account: 9_900_019, quantity: 2, price: 1147, trade_number: 90_000_000,
            running_quantity: 2, running_amount: 2_294_000, type_quantity: 2, type_amount: 2_294_000,
        },
        amount: 2_294_000, code: 79,
    },
    Piece {
        line: Z0001,
        reply: b"101099555561101  B020060801Z00019900019000000040000000459200000019000000100011480000000006000000068860000000000006000000068860000079                                                                    ",
        row: b"101099555561101  B020060801Z0001900000019900019000000040001148000000000060000000688600000000000060000000688600000                                     ",
        heading: BOUGHT_1101, security: b"1101  ", side: b"B", order: b"Z0001", new_broker: b"",
        entry: Entry {
            group: 0, kind: 0, order_type: 0, order: OrderNumber { first: b'Z', rest: 0x3130_3030 },
            new_broker: NO_BROKER, new_account: 9_900_019, quantity: 4, price: 1148, trade_number: 90_000_001,
            running_quantity: 6, running_amount: 6_886_000, type_quantity: 6, type_amount: 6_886_000,
        },
        amount: 4_592_000, code: 79,
    },
    Piece {
        line: Z0002,
        reply: b"101099555561101  B020060801Z00029900022000000050000000625000000019000000200012500000000011000000131360000000000011000000131360000000                                                                    ",
        row: b"101099555561101  B020060801Z0002900000029900022000000050001250000000000110000001313600000000000110000001313600000                                     ",
        heading: BOUGHT_1101, security: b"1101  ", side: b"B", order: b"Z0002", new_broker: b"",
        entry: Entry {
            group: 0, kind: 0, order_type: 0, order: OrderNumber { first: b'Z', rest: 0x3230_3030 },
            new_broker: NO_BROKER, new_account: 9_900_022, quantity: 5, price: 1250, trade_number: 90_000_002,
            running_quantity: 11, running_amount: 13_136_000, type_quantity: 11, type_amount: 13_136_000,
        },
        amount: 6_250_000, code: 0,
    },
    Piece {
        line: Z0003,
        reply: b"101099555562330  S020060801Z00039900035000000050000001525000000019000000300030500000000005000000152500000000000005000000152500000079                                                                    ",
        row: b"101099555562330  S020060801Z0003900000039900035000000050003050000000000050000001525000000000000050000001525000000                                     ",
        heading: SOLD_2330, security: b"2330  ", side: b"S", order: b"Z0003", new_broker: b"",
        entry: Entry {
            group: 1, kind: 0, order_type: 0, order: OrderNumber { first: b'Z', rest: 0x3330_3030 },
            new_broker: NO_BROKER, new_account: 9_900_035, quantity: 5, price: 3050, trade_number: 90_000_003,
            running_quantity: 5, running_amount: 15_250_000, type_quantity: 5, type_amount: 15_250_000,
        },
        amount: 15_250_000, code: 79,
    },
    Piece {
        line: Z0004,
        reply: b"101099555562330  S020060801Z00049900048000000150000004575000000519000000400030500000000020000000610000000000000015000000457500000000                                                                    ",
        row: b"101099555562330  S020060801Z0004900000049900048000000150003050005000000200000006100000000000000150000004575000000                                     ",
        heading: SOLD_2330, security: b"2330  ", side: b"S", order: b"Z0004", new_broker: b"",
        entry: Entry {
            group: 1, kind: 0, order_type: 5, order: OrderNumber { first: b'Z', rest: 0x3430_3030 },
            new_broker: NO_BROKER, new_account: 9_900_048, quantity: 15, price: 3050, trade_number: 90_000_004,
            running_quantity: 20, running_amount: 61_000_000, type_quantity: 15, type_amount: 45_750_000,
        },
        amount: 45_750_000, code: 0,
    },
    Piece {
        line: Z6001,
        reply: b"101099555563010  B220060801Z60019900019000000120000000010597200019000000500088310000000012000000001059720000000012000000001059720079                                                                    ",
        row: b"101099555563010  B220060801Z6001900000059900019000000120008831000000000120000000010597200000000120000000010597200                                     ",
        heading: BOUGHT_3010, security: b"3010  ", side: b"B", order: b"Z6001", new_broker: b"",
        entry: Entry {
            group: 2, kind: 2, order_type: 0, order: OrderNumber { first: b'Z', rest: 0x3130_3036 },
            new_broker: NO_BROKER, new_account: 9_900_019, quantity: 12, price: 8831, trade_number: 90_000_005,
            running_quantity: 12, running_amount: 105_972, type_quantity: 12, type_amount: 105_972,
        },
        amount: 105_972, code: 79,
    },
    Piece {
        line: Z6001,
        reply: b"101099555563010  B220060801Z60019900019000000040000000003532800019000000600088320000000016000000001413000000000016000000001413000079                                                                    ",
        row: b"101099555563010  B220060801Z6001900000069900019000000040008832000000000160000000014130000000000160000000014130000                                     ",
        heading: BOUGHT_3010, security: b"3010  ", side: b"B", order: b"Z6001", new_broker: b"",
        entry: Entry {
            group: 2, kind: 2, order_type: 0, order: OrderNumber { first: b'Z', rest: 0x3130_3036 },
            new_broker: NO_BROKER, new_account: 9_900_019, quantity: 4, price: 8832, trade_number: 90_000_006,
            running_quantity: 16, running_amount: 141_300, type_quantity: 16, type_amount: 141_300,
        },
        amount: 35_328, code: 79,
    },
    Piece {
        line: Z6002,
        reply: b"101099555563010  B220060801Z60029900022000000120000000010597200019000000700088310000000028000000002472720000000028000000002472720079                                                                    ",
        row: b"101099555563010  B220060801Z6002900000079900022000000120008831000000000280000000024727200000000280000000024727200                                     ",
        heading: BOUGHT_3010, security: b"3010  ", side: b"B", order: b"Z6002", new_broker: b"",
        entry: Entry {
            group: 2, kind: 2, order_type: 0, order: OrderNumber { first: b'Z', rest: 0x3230_3036 },
            new_broker: NO_BROKER, new_account: 9_900_022, quantity: 12, price: 8831, trade_number: 90_000_007,
            running_quantity: 28, running_amount: 247_272, type_quantity: 28, type_amount: 247_272,
        },
        amount: 105_972, code: 79,
    },
    Piece {
        line: Z6002,
        reply: b"101099555563010  B220060801Z60029900022000000040000000003532800019000000800088320000000032000000002826000000000032000000002826000079                                                                    ",
        row: b"101099555563010  B220060801Z6002900000089900022000000040008832000000000320000000028260000000000320000000028260000                                     ",
        heading: BOUGHT_3010, security: b"3010  ", side: b"B", order: b"Z6002", new_broker: b"",
        entry: Entry {
            group: 2, kind: 2, order_type: 0, order: OrderNumber { first: b'Z', rest: 0x3230_3036 },
            new_broker: NO_BROKER, new_account: 9_900_022, quantity: 4, price: 8832, trade_number: 90_000_008,
            running_quantity: 32, running_amount: 282_600, type_quantity: 32, type_amount: 282_600,
        },
        amount: 35_328, code: 79,
    },
    Piece {
        line: Z6003,
        reply: b"101099555563010  B220060801Z60039900035000000300000000026280000019000000900087600000000062000000005454000000000062000000005454000000                                                                    ",
        row: b"101099555563010  B220060801Z6003900000099900035000000300008760000000000620000000054540000000000620000000054540000                                     ",
        heading: BOUGHT_3010, security: b"3010  ", side: b"B", order: b"Z6003", new_broker: b"",
        entry: Entry {
            group: 2, kind: 2, order_type: 0, order: OrderNumber { first: b'Z', rest: 0x3330_3036 },
            new_broker: NO_BROKER, new_account: 9_900_035, quantity: 30, price: 8760, trade_number: 90_000_009,
            running_quantity: 62, running_amount: 545_400, type_quantity: 62, type_amount: 545_400,
        },
        amount: 262_800, code: 0,
    },
];

// 79 until the last piece of a security, which completes its group.
#[test]
fn replies_and_rows(rt: HostRuntime) {
    for p in PIECES.iter() {
        check_piece::<Omnibus>(&rt, p);
    }
}

const DELETE_BOARD: &[u8; 200] =
    b"101099555561101  B0200608010    000000000000000000000000000000002                                                                                                                                       ";

const DELETE_ODD: &[u8; 200] =
    b"101099555563010  B2200608010    000000000000000000000000000000002                                                                                                                                       ";

#[rattlefmt::skip]
static DELETIONS: [Deletion; 2] = [
    Deletion {
        security: b"1101  ", kind: b"0",
        repeated: Repeated {
            line: DELETE_BOARD, code: 0,
            reply: b"101099555561101  B0200608010    0000000000000000000000000000000020000000000000000000000000000000000000000000000000000000000000000000                                                                    ",
        },
    },
    Deletion {
        security: b"3010  ", kind: b"2",
        repeated: Repeated {
            line: DELETE_ODD, code: 0,
            reply: b"101099555563010  B2200608010    0000000000000000000000000000000020000000000000000000000000000000000000000000000000000000000000000000                                                                    ",
        },
    },
];

// Every figure of a deletion is zero, in its line as in its reply.
#[test]
fn deletions(rt: HostRuntime) {
    check_deletions::<Omnibus>(&rt, &DELETIONS, b"9955556", b"20060801");
}

const TAILED: &[u8; 200] =
    b"101099555562330  S020060801Z0004990004800000015000000457500000051xxxxxxxxxxxxxxxxxxxxxxxxxxxxxxxxxxxxxxxxxxxxxxxxxxxxxxxxxxxxxxxxxxxxxxxxxxxxxxxxxxxxxxxxxxxxxxxxxxxxxxxxxxxxxxxxxxxxxxxxxxxxxxxxxxxxxxx";

#[rattlefmt::skip]
static REFUSALS: [Repeated; 2] = [
    // a number of one digit
    Repeated {
        line: Z6003, code: 1,
        reply: b"101099555563010  B220060801Z60039900035000000300000000026280000010000000000000000000000000000000000000000000000000000000000000000001                                                                    ",
    },
    // what stands behind the code is not repeated
    Repeated {
        line: TAILED, code: 70,
        reply: b"101099555562330  S020060801Z00049900048000000150000004575000000510000000000000000000000000000000000000000000000000000000000000000070                                                                    ",
    },
];

// A refusal's reply repeats the line up to its code, with zeros in the answered numbers.
#[test]
fn refusals(rt: HostRuntime) {
    assert!(rt; matches!(tell::<Omnibus>(TAILED), Ok(Told::Filing(_))));
    for r in REFUSALS.iter() {
        check_repeated::<Omnibus>(&rt, r);
    }
}

// Account 9955558 keeps what is unfinished. Side, kind and order type of such a line say nothing.
const RETENTION: &[u8; 200] =
    b"5XXX9955558ZZZZZZS220120326     995555800000000000000000000000001                                                                                                                                       ";

const BOUGHT_5347: Heading = Heading {
    broker: 0x5858_5835,
    date: 20_120_326,
    group: GroupName {
        account: 9_955_558,
        security: 0x2020_3734_3335,
        side: b'B',
    },
};

const SOLD_5348: Heading = Heading {
    broker: 0x5858_5835,
    date: 20_120_326,
    group: GroupName {
        account: 9_955_558,
        security: 0x2020_3834_3335,
        side: b'S',
    },
};

// A total that is kept, and its reply.
#[derive(Clone, Copy)]
struct Kept {
    total: Retained,
    reply: &'static [u8; 200],
}

#[rattlefmt::skip]
static KEPT: [Kept; 3] = [
    // board lots that were filed in part
    Kept {
        total: Retained {
            heading: BOUGHT_5347, kind: Kind::BoardLot, quantity: 50, amount: Cents { count: 375_000_000 },
        },
        reply: b"5XXX99555585347  B020120326     9955558000000000000000000000000010000000000000000000000050000003750000000000000000000000000000000000                                                                    ",
    },
    // odd lots of the same group
    Kept {
        total: Retained {
            heading: BOUGHT_5347, kind: Kind::OddLot, quantity: 800, amount: Cents { count: 6_000_000 },
        },
        reply: b"5XXX99555585347  B220120326     9955558000000000000000000000000010000000000000000000000800000000060000000000000000000000000000000000                                                                    ",
    },
    // 5 units for 250,000 of order type 0 and 3 for 153,000 of order type 5 are one total
    Kept {
        total: Retained {
            heading: SOLD_5348, kind: Kind::BoardLot, quantity: 8, amount: Cents { count: 40_300_000 },
        },
        reply: b"5XXX99555585348  S020120326     9955558000000000000000000000000010000000000000000000000008000000403000000000000000000000000000000000                                                                    ",
    },
];

// The reply's running figures are those of the total, its other figures are zero, and it has no order number.
fn check_kept(rt: &impl Abort, k: &Kept) {
    let reply = k.reply;
    let total = k.total;
    let numbers = [
        (Item::Account, 9_955_558),
        (Item::Kind, u64::from(u8::from(total.kind))),
        (Item::Date, 20_120_326),
        (Item::NewAccount, 9_955_558),
        (Item::Quantity, 0),
        (Item::Amount, 0),
        (Item::OrderType, 0),
        (Item::Code, 1),
        (Item::TradeNumber, 0),
        (Item::Price, 0),
        (Item::RunningQuantity, u64::from(total.quantity)),
        (Item::RunningAmount, total.amount.count.saturating_mul(100)),
        (Item::TypeQuantity, 0),
        (Item::TypeAmount, 0),
        (Item::ErrorCode, 0),
    ];
    for (item, wanted) in numbers.iter() {
        assert_eq!(rt; number::<Omnibus>(Form::Reply, *item, reply), Some(*wanted));
    }
    assert_eq!(rt;
        field::<Omnibus>(Form::Reply, Item::Order, reply),
        b"     ".as_slice()
    );
    check_written::<Omnibus, Retained>(rt, Form::Reply, &total, reply);
}

// The line asks to keep what is unfinished, and each total gets a reply.
#[test]
fn retention(rt: HostRuntime) {
    match tell::<Omnibus>(RETENTION) {
        Ok(Told::Retention(told)) => {
            assert_eq!(rt; told.broker, b"5XXX".as_slice());
            assert_eq!(rt; told.account, b"9955558".as_slice());
            assert_eq!(rt; told.date, b"20120326".as_slice());
            assert_eq!(rt; told.new_account, b"9955558".as_slice());
        }
        _ => panic!(rt; "a retention is wanted"),
    }
    for k in KEPT.iter() {
        check_kept(&rt, k);
    }
}
