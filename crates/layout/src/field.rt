// The items that records tell, and the places where they stand.

/// What a field tells.
#[derive(Clone, Copy, PartialEq, Eq)]
pub enum Item {
    Broker,
    Account,
    Security,
    Side,
    Kind,
    Date,
    Order,
    NewBroker,
    NewAccount,
    Quantity,
    Amount,
    OrderType,
    Code,
    TradeNumber,
    Price,
    RunningQuantity,
    RunningAmount,
    TypeQuantity,
    TypeAmount,
    ErrorCode,
    Message,
    Filler,
}

/// A field of a record: what it tells, its first byte, counted from 1, and its width in bytes.
#[derive(Clone, Copy, PartialEq, Eq)]
pub struct Field {
    pub item: Item,
    pub first: usize,
    pub width: usize,
}
