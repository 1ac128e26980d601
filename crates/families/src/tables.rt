// The layouts of the exchange's records, one table each, with first bytes and widths as its handbooks give them.
// Each field is written out, since a constant's value cannot call a function.
use layout::{Field, Item};

// The first 32 bytes of lines, replies and rows; the first 27 also of rows of totals.
#[rattlefmt::skip]
const BROKER: Field = Field { item: Item::Broker, first: 1, width: 4 };

#[rattlefmt::skip]
const ACCOUNT: Field = Field { item: Item::Account, first: 5, width: 7 };

#[rattlefmt::skip]
const SECURITY: Field = Field { item: Item::Security, first: 12, width: 6 };

#[rattlefmt::skip]
const SIDE: Field = Field { item: Item::Side, first: 18, width: 1 };

#[rattlefmt::skip]
const KIND: Field = Field { item: Item::Kind, first: 19, width: 1 };

#[rattlefmt::skip]
const DATE: Field = Field { item: Item::Date, first: 20, width: 8 };

#[rattlefmt::skip]
const ORDER: Field = Field { item: Item::Order, first: 28, width: 5 };

/// A line of the plan family, CAJ.
#[rattlefmt::skip]
pub static PLAN_LINE: [Field; 13] = [
    BROKER, ACCOUNT, SECURITY, SIDE, KIND, DATE, ORDER,
    Field { item: Item::NewBroker, first: 33, width: 4 },
    Field { item: Item::NewAccount, first: 37, width: 7 },
    Field { item: Item::Quantity, first: 44, width: 8 },
    Field { item: Item::Amount, first: 52, width: 16 },
    Field { item: Item::Code, first: 68, width: 1 },
    Field { item: Item::Filler, first: 69, width: 132 },
];

/// A reply of the plan family, CAJ.
#[rattlefmt::skip]
pub static PLAN_REPLY: [Field; 19] = [
    BROKER, ACCOUNT, SECURITY, SIDE, KIND, DATE, ORDER,
    Field { item: Item::NewBroker, first: 33, width: 4 },
    Field { item: Item::NewAccount, first: 37, width: 7 },
    Field { item: Item::Quantity, first: 44, width: 8 },
    Field { item: Item::Amount, first: 52, width: 16 },
    Field { item: Item::Code, first: 68, width: 1 },
    Field { item: Item::TradeNumber, first: 69, width: 8 },
    Field { item: Item::Price, first: 77, width: 9 },
    Field { item: Item::RunningQuantity, first: 86, width: 8 },
    Field { item: Item::RunningAmount, first: 94, width: 16 },
    Field { item: Item::ErrorCode, first: 110, width: 2 },
    Field { item: Item::Message, first: 112, width: 60 },
    Field { item: Item::Filler, first: 172, width: 29 },
];

/// A row of the plan family, CAK.
#[rattlefmt::skip]
pub static PLAN_ROW: [Field; 15] = [
    BROKER, ACCOUNT, SECURITY, SIDE, KIND, DATE, ORDER,
    Field { item: Item::TradeNumber, first: 33, width: 8 },
    Field { item: Item::NewBroker, first: 41, width: 4 },
    Field { item: Item::NewAccount, first: 45, width: 7 },
    Field { item: Item::Quantity, first: 52, width: 8 },
    Field { item: Item::Price, first: 60, width: 9 },
    Field { item: Item::RunningQuantity, first: 69, width: 8 },
    Field { item: Item::RunningAmount, first: 77, width: 16 },
    Field { item: Item::Filler, first: 93, width: 58 },
];

/// A line of the omnibus family, C62.
#[rattlefmt::skip]
pub static OMNIBUS_LINE: [Field; 13] = [
    BROKER, ACCOUNT, SECURITY, SIDE, KIND, DATE, ORDER,
    Field { item: Item::NewAccount, first: 33, width: 7 },
    Field { item: Item::Quantity, first: 40, width: 8 },
    Field { item: Item::Amount, first: 48, width: 16 },
    Field { item: Item::OrderType, first: 64, width: 1 },
    Field { item: Item::Code, first: 65, width: 1 },
    Field { item: Item::Filler, first: 66, width: 135 },
];

/// A reply of the omnibus family, C62.
#[rattlefmt::skip]
pub static OMNIBUS_REPLY: [Field; 21] = [
    BROKER, ACCOUNT, SECURITY, SIDE, KIND, DATE, ORDER,
    Field { item: Item::NewAccount, first: 33, width: 7 },
    Field { item: Item::Quantity, first: 40, width: 8 },
    Field { item: Item::Amount, first: 48, width: 16 },
    Field { item: Item::OrderType, first: 64, width: 1 },
    Field { item: Item::Code, first: 65, width: 1 },
    Field { item: Item::TradeNumber, first: 66, width: 8 },
    Field { item: Item::Price, first: 74, width: 9 },
    Field { item: Item::RunningQuantity, first: 83, width: 8 },
    Field { item: Item::RunningAmount, first: 91, width: 16 },
    Field { item: Item::TypeQuantity, first: 107, width: 8 },
    Field { item: Item::TypeAmount, first: 115, width: 16 },
    Field { item: Item::ErrorCode, first: 131, width: 2 },
    Field { item: Item::Message, first: 133, width: 60 },
    Field { item: Item::Filler, first: 193, width: 8 },
];

/// A row of the omnibus family, C63.
#[rattlefmt::skip]
pub static OMNIBUS_ROW: [Field; 17] = [
    BROKER, ACCOUNT, SECURITY, SIDE, KIND, DATE, ORDER,
    Field { item: Item::TradeNumber, first: 33, width: 8 },
    Field { item: Item::NewAccount, first: 41, width: 7 },
    Field { item: Item::Quantity, first: 48, width: 8 },
    Field { item: Item::Price, first: 56, width: 9 },
    Field { item: Item::OrderType, first: 65, width: 1 },
    Field { item: Item::RunningQuantity, first: 66, width: 8 },
    Field { item: Item::RunningAmount, first: 74, width: 16 },
    Field { item: Item::TypeQuantity, first: 90, width: 8 },
    Field { item: Item::TypeAmount, first: 98, width: 16 },
    Field { item: Item::Filler, first: 114, width: 37 },
];

/// A row of totals, CAI.
#[rattlefmt::skip]
pub static TOTAL_ROW: [Field; 9] = [
    BROKER, ACCOUNT, SECURITY, SIDE, KIND, DATE,
    Field { item: Item::Quantity, first: 28, width: 8 },
    Field { item: Item::Amount, first: 36, width: 16 },
    Field { item: Item::Filler, first: 52, width: 29 },
];

/// The bytes of a row of totals.
pub const TOTAL_LENGTH: usize = 80;
