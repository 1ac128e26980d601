// Records that are read field by field, and written to the byte.
use families::{Family, Form};
use forms::{Heading, PieceReply, Repeat, Row, Told, field, number, put_form, tell};
use layout::{Contents, Item};
use ledger::{Entry, OrderNumber};
use lots::Cents;
use std::process::Abort;

// A filing's line, the texts that it tells, and what it says in numbers. Where the family has no new broker or no order
// type, that text is empty.
#[derive(Clone, Copy)]
pub(crate) struct Filing {
    pub(crate) line: &'static [u8; 200],
    pub(crate) security: &'static [u8],
    pub(crate) side: &'static [u8],
    pub(crate) kind: &'static [u8],
    pub(crate) order: &'static [u8],
    pub(crate) new_broker: &'static [u8],
    pub(crate) new_account: &'static [u8],
    pub(crate) quantity: &'static [u8],
    pub(crate) amount: &'static [u8],
    pub(crate) order_type: &'static [u8],
    pub(crate) says: Says,
}

// `Filed` again, but flat and in yuan: the expected values are written as the handbook has them. Here and in the texts each field is
// compared by itself, since these structs have no equality, and a failure tells the field's value.
#[derive(Clone, Copy)]
pub(crate) struct Says {
    pub(crate) order: OrderNumber,
    pub(crate) new_broker: u32,
    pub(crate) new_account: u32,
    pub(crate) quantity: u64,
    // in yuan
    pub(crate) amount: u64,
    pub(crate) order_type: u8,
}

// A piece of an accepted filing: the filing's line, what the ledger keeps of the piece, and its reply and row. Texts that the
// ledger keeps are packed, the first character in the low byte: 1010 is 0x3031_3031.
#[derive(Clone, Copy)]
pub(crate) struct Piece {
    pub(crate) line: &'static [u8; 200],
    pub(crate) reply: &'static [u8; 200],
    pub(crate) row: &'static [u8; 150],
    pub(crate) heading: Heading,
    pub(crate) security: &'static [u8],
    pub(crate) side: &'static [u8],
    pub(crate) order: &'static [u8],
    pub(crate) new_broker: &'static [u8],
    pub(crate) entry: Entry,
    // in cents
    pub(crate) amount: u64,
    pub(crate) code: u8,
}

// A deletion: the security and the kind that its line tells, and its reply.
#[derive(Clone, Copy)]
pub(crate) struct Deletion {
    pub(crate) security: &'static [u8],
    pub(crate) kind: &'static [u8],
    pub(crate) repeated: Repeated,
}

// A line that is answered by repeating it up to its code.
#[derive(Clone, Copy)]
pub(crate) struct Repeated {
    pub(crate) line: &'static [u8; 200],
    pub(crate) code: u8,
    pub(crate) reply: &'static [u8; 200],
}

// A buffer of markers, but for a record from `at` on.
fn marked(rt: &impl Abort, at: usize, record: &[u8]) -> [u8; 450] {
    assert!(rt; at <= 200 && record.len() <= 200);
    let mut bytes = [0xEEu8; 450];
    bytes[at..at + record.len()].copy_from_slice(record);
    bytes
}

// What is written as record 0, and as record 1, of a larger buffer is the record wanted, and every other byte is left.
pub(crate) fn check_written<F: Family, C: Contents>(
    rt: &impl Abort,
    form: Form,
    contents: &C,
    wanted: &[u8],
) {
    let len = wanted.len();
    assert!(rt; F::length(form) == len && len <= 200);
    let mut first = [0xEEu8; 450];
    put_form::<F, C>(&mut first, form, 0, contents);
    assert_eq!(rt; first, marked(rt, 0, wanted));
    let mut second = [0xEEu8; 450];
    put_form::<F, C>(&mut second, form, 1, contents);
    assert_eq!(rt; second, marked(rt, len, wanted));
}

// Each line tells a filing of its texts and of the account and date of the example, and says its numbers.
// Account and date come side by side: an example states the two once, for all its lines.
pub(crate) fn check_filings<F: Family>(
    rt: &impl Abort,
    filings: &[Filing],
    account: &'static [u8],
    date: &'static [u8],
) {
    for f in filings {
        check_filing::<F>(rt, f, account, date);
        check_says::<F>(rt, f);
    }
}

// The line tells a filing of these texts.
fn check_filing<F: Family>(
    rt: &impl Abort,
    f: &Filing,
    account: &'static [u8],
    date: &'static [u8],
) {
    let line = f.line;
    match tell::<F>(line) {
        Ok(Told::Filing(told)) => {
            let heading = told.heading;
            let texts: [(&'static [u8], &'static [u8]); 12] = [
                (heading.broker, b"1010"),
                (heading.group.account, account),
                (heading.group.security, f.security),
                (heading.group.side, f.side),
                (heading.kind, f.kind),
                (heading.date, date),
                (told.order, f.order),
                (told.new_broker, f.new_broker),
                (told.new_account, f.new_account),
                (told.quantity, f.quantity),
                (told.amount, f.amount),
                (told.order_type, f.order_type),
            ];
            for (text, wanted) in texts.iter() {
                assert_eq!(rt; *text, *wanted);
            }
        }
        _ => panic!(rt; "a filing is wanted"),
    }
}

// The line says these numbers.
fn check_says<F: Family>(rt: &impl Abort, f: &Filing) {
    let line = f.line;
    let Ok(Told::Filing(parts)) = tell::<F>(line) else {
        panic!(rt; "a filing is wanted");
    };
    let filed = F::filed(F::read(parts));
    let common = filed.common;
    let account = common.investor.map(|investor| investor.number);
    assert_eq!(rt; common.order, Some(f.says.order));
    assert_eq!(rt; account, Some(f.says.new_account));
    assert_eq!(rt; common.quantity, Some(f.says.quantity));
    assert_eq!(rt; common.amount, Some(f.says.amount.saturating_mul(10_000)));
    assert_eq!(rt; filed.new_broker, Some(f.says.new_broker));
    assert_eq!(rt; filed.order_type, Some(f.says.order_type));
}

// A reply or a row tells what the ledger keeps of the piece. A field of money has two decimals more than cents, and a field
// that the family does not have is empty, which reads as 0.
fn check_numbers<F: Family>(rt: &impl Abort, form: Form, record: &[u8], p: &Piece) {
    let e = p.entry;
    let numbers = [
        (Item::Account, Some(u64::from(p.heading.group.account))),
        (Item::Kind, Some(u64::from(e.kind))),
        (Item::Date, Some(u64::from(p.heading.date))),
        (Item::NewAccount, Some(u64::from(e.new_account))),
        (Item::Quantity, Some(u64::from(e.quantity))),
        (Item::OrderType, Some(u64::from(e.order_type))),
        (Item::TradeNumber, Some(u64::from(e.trade_number))),
        (Item::Price, Some(u64::from(e.price).saturating_mul(100))),
        (Item::RunningQuantity, Some(u64::from(e.running_quantity))),
        (
            Item::RunningAmount,
            Some(e.running_amount.saturating_mul(100)),
        ),
        (Item::TypeQuantity, Some(u64::from(e.type_quantity))),
        (Item::TypeAmount, Some(e.type_amount.saturating_mul(100))),
    ];
    let trade = e.trade_number;
    for (item, wanted) in numbers.iter() {
        assert_eq!(rt;
            number::<F>(form, *item, record),
            *wanted,
            "trade number {trade}"
        );
    }
    let broker: &[u8] = b"1010";
    let texts = [
        (Item::Broker, broker),
        (Item::Security, p.security),
        (Item::Side, p.side),
        (Item::Order, p.order),
        (Item::NewBroker, p.new_broker),
    ];
    for (item, wanted) in texts.iter() {
        assert_eq!(rt;
            field::<F>(form, *item, record),
            *wanted,
            "trade number {trade}"
        );
    }
}

// The reply and the row of a piece are read field by field, and written to the byte.
pub(crate) fn check_piece<F: Family>(rt: &impl Abort, p: &Piece) {
    let line = p.line;
    let reply = p.reply;
    let row = p.row;
    check_numbers::<F>(rt, Form::Reply, reply, p);
    assert_eq!(rt;
        number::<F>(Form::Reply, Item::Amount, reply),
        Some(p.amount.saturating_mul(100))
    );
    assert_eq!(rt; field::<F>(Form::Reply, Item::Code, reply), b"1".as_slice());
    assert_eq!(rt;
        number::<F>(Form::Reply, Item::ErrorCode, reply),
        Some(u64::from(p.code))
    );
    assert_eq!(rt;
        field::<F>(Form::Reply, Item::Message, reply),
        [b' '; 60].as_slice()
    );
    check_numbers::<F>(rt, Form::Row, row, p);
    let answer = PieceReply {
        line,
        entry: p.entry,
        amount: Cents { count: p.amount },
        code: p.code,
    };
    check_written::<F, PieceReply>(rt, Form::Reply, &answer, reply);
    let kept = Row {
        heading: p.heading,
        entry: p.entry,
    };
    check_written::<F, Row>(rt, Form::Row, &kept, row);
}

// The line tells a deletion of what was bought of a security.
fn check_deletion<F: Family>(rt: &impl Abort, d: &Deletion, account: &[u8], date: &[u8]) {
    let line = d.repeated.line;
    match tell::<F>(line) {
        Ok(Told::Deletion(heading)) => {
            assert_eq!(rt; heading.broker, b"1010".as_slice());
            assert_eq!(rt; heading.group.account, account);
            assert_eq!(rt; heading.group.security, d.security);
            assert_eq!(rt; heading.group.side, b"B".as_slice());
            assert_eq!(rt; heading.kind, d.kind);
            assert_eq!(rt; heading.date, date);
        }
        _ => panic!(rt; "a deletion is wanted"),
    }
}

// Each line tells its deletion of the account and date of the example, and its reply repeats it.
pub(crate) fn check_deletions<F: Family>(
    rt: &impl Abort,
    deletions: &[Deletion],
    account: &[u8],
    date: &[u8],
) {
    for d in deletions {
        check_deletion::<F>(rt, d, account, date);
        check_repeated::<F>(rt, &d.repeated);
    }
}

const ANSWERED: [Item; 6] = [
    Item::TradeNumber,
    Item::Price,
    Item::RunningQuantity,
    Item::RunningAmount,
    Item::TypeQuantity,
    Item::TypeAmount,
];

// The reply repeats its line: it tells zeros and the error code, and is written to the byte.
pub(crate) fn check_repeated<F: Family>(rt: &impl Abort, r: &Repeated) {
    let line = r.line;
    let reply = r.reply;
    for item in ANSWERED.iter() {
        assert_eq!(rt; number::<F>(Form::Reply, *item, reply), Some(0));
    }
    assert_eq!(rt;
        number::<F>(Form::Reply, Item::ErrorCode, reply),
        Some(u64::from(r.code))
    );
    let repeat = Repeat { line, code: r.code };
    check_written::<F, Repeat>(rt, Form::Reply, &repeat, reply);
}
