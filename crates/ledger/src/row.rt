// An entry of a ledger, in plain numbers that hold no more than its bytes in a block.
ghost use Rattle.std.specs.Prelude.{◌≡◌};
ghost use Rattle.ledger.specs.Rows.{of_kind, picked};

/// An order number: five characters, the first by itself and the other four packed, the first of them in the low byte.
// Packed and no five bytes: the two numbers are the parts that a block keeps, and are compared as numbers.
#[derive(Clone, Copy, PartialEq, Eq, Hash, Default, Debug)]
pub struct OrderNumber {
    pub first: u8,
    pub rest: u32,
}

/// One piece of a filing, as a ledger keeps it. Its kind and its order type are plain numbers, since the bytes of a block may hold
/// any.
#[derive(Clone, Copy, PartialEq, Eq, Default, Debug)]
pub struct Entry {
    /// The group's number in the day's table.
    pub group: u8,
    /// 0 for board lots, 2 for odd lots.
    pub kind: u8,
    /// 0 to 6; 0 in a plan.
    pub order_type: u8,
    pub order: OrderNumber,
    /// Four characters, the first in the low byte; blanks in an omnibus account.
    pub new_broker: u32,
    pub new_account: u32,
    /// Trading units for board lots, shares for odd lots.
    pub quantity: u32,
    /// In cents, for one share.
    pub price: u32,
    pub trade_number: u32,
    /// The running figures over group and kind, this entry included; amounts in cents.
    pub running_quantity: u32,
    pub running_amount: u64,
    /// The same over group, kind and order type; 0 in a plan.
    pub type_quantity: u32,
    pub type_amount: u64,
}

impl Entry {
    /// Whether the entry is of a group and kind.
    // Two plain numbers, as entries hold them: ledgers know neither groups nor kinds.
    pub fn is_of(&self, group: u8, kind: u8) -> bool
        ensures { result ≡ of_kind group kind self.now }
    {
        self.group == group && self.kind == kind
    }
}

/// Some of a ledger's entries: those of a group and kind and, where one is given, of an order type.
#[derive(Clone, Copy, PartialEq, Eq, Debug)]
pub struct Pick {
    pub group: u8,
    pub kind: u8,
    pub order_type: Option<u8>,
}

impl Pick {
    /// Whether an entry is one of them.
    pub fn takes(self, e: &Entry) -> bool
        ensures { result ≡ picked self.group self.kind self.order_type e.now }
    {
        e.is_of(self.group, self.kind)
            && self.order_type.is_none_or(|wanted| e.order_type == wanted)
    }
}

/// What some entries hold: the sum of their quantities, and of quantity times price.
#[derive(Clone, Copy, PartialEq, Eq, Default, Debug)]
pub struct Held {
    pub quantity: u128,
    pub amount: u128,
}
