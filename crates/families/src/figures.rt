// The figures of a filing's line.
ghost use Rattle.std.specs.Prelude.{◌≡◌};
ghost use Rattle.families.specs.Lines.{order_of, broker_of, type_of, common_in};
ghost use Rattle.families.specs.Parts.{filing_by};

use crate::accounts::{Investor, read_investor};
use crate::parts::FilingLine;
use ledger::OrderNumber;
use octets::{is_code, pack, read_digits};

/// What lines of both families say of a filing; nothing in place of a field that is malformed.
#[derive(Clone, Copy, Debug)]
pub struct Common {
    pub order: Option<OrderNumber>,
    pub investor: Option<Investor>,
    /// Trading units for board lots, shares for odd lots.
    pub quantity: Option<u64>,
    /// In ten-thousandths of a yuan.
    pub amount: Option<u64>,
}

/// What a filing says, in any family; nothing in place of a field that is malformed.
#[derive(Clone, Copy, Debug)]
pub struct Filed {
    pub common: Common,
    /// Four characters, the first in the low byte, as in the ledger's entries; blanks where the family has none.
    pub new_broker: Option<u32>,
    /// 0 to 6, a plain number as in the ledger's entries; 0 where the family has none.
    pub order_type: Option<u8>,
}

/// An order number: five of A–Z and 0–9.
// The readers of codes share no helper: past the test, each makes a value of its own shape.
pub fn read_order(part: &[u8]) -> Option<OrderNumber>
    ensures { result ≡ order_of part.now }
{
    if !is_code(part, 5) {
        return None;
    }
    // Four bytes fit 32 bits, so the cast loses nothing.
    Some(OrderNumber {
        first: part[0],
        rest: pack(&part[1..5]) as u32,
    })
}

/// A broker: four of A–Z and 0–9, packed.
pub fn read_broker(part: &[u8]) -> Option<u32>
    ensures { result ≡ broker_of part.now }
{
    if !is_code(part, 4) {
        return None;
    }
    // Four bytes fit 32 bits, so the cast loses nothing.
    Some(pack(part) as u32)
}

/// An order type: one digit, 0 to 6.
// A number and no enum: the ledger keeps it in a byte, and sums by it whatever it says.
pub fn read_order_type(part: &[u8]) -> Option<u8>
    ensures { result ≡ type_of part.now }
{
    match part {
        [digit @ b'0'..=b'6'] => Some(*digit - b'0'),
        _ => None,
    }
}

/// What lines of both families say of a filing, by its parts.
pub fn read_common(parts: FilingLine<'_>) -> Common
    ensures { result ≡ common_in (filing_by parts.entry) }
{
    Common {
        order: read_order(parts.order),
        investor: read_investor(parts.new_account),
        quantity: read_digits(parts.quantity),
        amount: read_digits(parts.amount),
    }
}
