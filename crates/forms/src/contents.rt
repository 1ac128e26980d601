// What replies and rows hold, field by field.
ghost use Rattle.std.specs.Prelude.{◌≡◌};
ghost use Rattle.std.specs.Option.{option_map};
ghost use Rattle.layout.specs.Values.{content_by};
ghost use Rattle.forms.specs.Replies.{money, order_text, heading_says, entry_says, piece_says, repeat_says, retained_says, row_says};

use layout::{Contents, Field, Item, Value, part};
use ledger::{Entry, OrderNumber};
use lots::{Cents, Kind};

/// A group: account, security and side.
// Codes are packed into numbers, here and in `Heading`, as entries pack theirs: they are compared as numbers.
// `GroupFields` has the same as parts of a record, good or bad.
#[derive(Clone, Copy, Debug, Default, PartialEq, Eq)]
pub struct GroupName {
    /// The number that seven digits write.
    pub account: u32,
    /// Six characters, the first in the low byte.
    pub security: u64,
    /// One character.
    // The record's byte and no enum, since it is written back as it is.
    pub side: u8,
}

/// What the first 27 bytes of a record tell, but for the kind.
#[derive(Clone, Copy, Debug, Default, PartialEq, Eq)]
pub struct Heading {
    /// Four characters, the first in the low byte.
    pub broker: u32,
    /// YYYYMMDD.
    pub date: u32,
    pub group: GroupName,
}

/// The reply to a piece of an accepted filing: the line up to its code, with the piece's quantity and amount, and then what
/// the entry tells.
#[derive(Clone, Copy)]
pub struct PieceReply<'a> {
    pub line: &'a [u8],
    pub entry: Entry,
    pub amount: Cents,
    /// 00 on the last piece of a filing that completes its group, else 79: the record's number, as refusals are named above
    /// this crate.
    pub code: u8,
}

/// A reply that repeats the line up to its code, with zeros in the answered numbers: a deletion's with 00, or a refusal's
/// with its number.
#[derive(Clone, Copy)]
pub struct Repeat<'a> {
    pub line: &'a [u8],
    // The record's number, as refusals are named above this crate.
    pub code: u8,
}

/// A retention's reply for one total of a group that it takes.
#[derive(Clone, Copy)]
pub struct Retained {
    pub heading: Heading,
    pub kind: Kind,
    pub quantity: u32,
    pub amount: Cents,
}

/// An entry of the ledger as a row.
#[derive(Clone, Copy)]
pub struct Row {
    pub heading: Heading,
    pub entry: Entry,
}

// Values are made where they are told, with no `From`: a code and a number are both a `u32`, and a field packs the one and writes
// the other in digits.

// Cents as a field has them.
fn money(cents: u64) -> Value<'static>
    ensures { content_by result ≡ money cents }
{
    Value::Number(Cents { count: cents }.ten_thousandths())
}

// An order number as a packed text. No `From` of the order number: its crate knows no texts of records.
fn order_text(order: OrderNumber) -> u64
    ensures { result ≡ order_text order }
{
    u64::from(order.first) + 256 * u64::from(order.rest)
}

impl Heading {
    // What the heading tells of an item; blanks for what it does not tell.
    fn value(&self, item: Item) -> Value<'_>
        ensures { content_by result ≡ heading_says self.now item }
    {
        match item {
            Item::Broker => Value::Packed(u64::from(self.broker)),
            Item::Account => Value::Number(u128::from(self.group.account)),
            Item::Security => Value::Packed(self.group.security),
            Item::Side => Value::Packed(u64::from(self.group.side)),
            Item::Date => Value::Number(u128::from(self.date)),
            _ => Value::Blank,
        }
    }
}

// What an entry tells of an item, in its piece's reply and in its row alike.
fn of_entry(e: &Entry, item: Item) -> Option<Value<'static>>
    ensures { option_map content_by result ≡ entry_says e.now item }
{
    match item {
        Item::Quantity => Some(Value::Number(u128::from(e.quantity))),
        Item::TradeNumber => Some(Value::Number(u128::from(e.trade_number))),
        Item::Price => Some(money(u64::from(e.price))),
        Item::RunningQuantity => Some(Value::Number(u128::from(e.running_quantity))),
        Item::RunningAmount => Some(money(e.running_amount)),
        Item::TypeQuantity => Some(Value::Number(u128::from(e.type_quantity))),
        Item::TypeAmount => Some(money(e.type_amount)),
        _ => None,
    }
}

impl<'a> Contents for PieceReply<'a> {
    ghost says = { λ c f. piece_says c.line.now c.entry c.amount.count c.code f };

    fn value(&self, field: Field) -> Value<'_> {
        match field.item {
            Item::Amount => money(self.amount.count),
            Item::ErrorCode => Value::Number(u128::from(self.code)),
            Item::Message | Item::Filler => Value::Blank,
            item => of_entry(&self.entry, item).unwrap_or(Value::Text(part(self.line, field))),
        }
    }
}

impl<'a> Contents for Repeat<'a> {
    ghost says = { λ c f. repeat_says c.line.now c.code f };

    fn value(&self, field: Field) -> Value<'_> {
        match field.item {
            Item::TradeNumber | Item::Price => Value::Number(0),
            Item::RunningQuantity | Item::RunningAmount => Value::Number(0),
            Item::TypeQuantity | Item::TypeAmount => Value::Number(0),
            Item::ErrorCode => Value::Number(u128::from(self.code)),
            Item::Message | Item::Filler => Value::Blank,
            _ => Value::Text(part(self.line, field)),
        }
    }
}

impl Contents for Retained {
    ghost says = { λ c f. retained_says c f.item };

    fn value(&self, field: Field) -> Value<'_> {
        match field.item {
            Item::Kind => Value::Number(u128::from(u8::from(self.kind))),
            Item::NewAccount => Value::Number(u128::from(self.heading.group.account)),
            Item::Quantity | Item::Amount | Item::OrderType => Value::Number(0),
            Item::Code => Value::Number(1),
            Item::TradeNumber | Item::Price => Value::Number(0),
            Item::RunningQuantity => Value::Number(u128::from(self.quantity)),
            Item::RunningAmount => money(self.amount.count),
            Item::TypeQuantity | Item::TypeAmount => Value::Number(0),
            Item::ErrorCode => Value::Number(0),
            _ => self.heading.value(field.item),
        }
    }
}

impl Contents for Row {
    ghost says = { λ c f. row_says c f.item };

    fn value(&self, field: Field) -> Value<'_> {
        let e = self.entry;
        match field.item {
            Item::Kind => Value::Number(u128::from(e.kind)),
            Item::Order => Value::Packed(order_text(e.order)),
            Item::NewBroker => Value::Packed(u64::from(e.new_broker)),
            Item::NewAccount => Value::Number(u128::from(e.new_account)),
            Item::OrderType => Value::Number(u128::from(e.order_type)),
            item => of_entry(&e, item).unwrap_or(self.heading.value(item)),
        }
    }
}
