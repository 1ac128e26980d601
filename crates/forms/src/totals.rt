// Rows of totals, and what names a group.
ghost use Rattle.std.specs.Prelude.{◌≡◌};
ghost use Rattle.families.specs.Parts.{group_by};
ghost use Rattle.forms.specs.Totals.{kind_in, side_in, security_in, group_in, total_in};

use crate::contents::GroupName;
use crate::telling::ALL_SECURITIES;
use families::{Family, GroupFields, Rules, TOTAL_LENGTH, TOTAL_ROW, read_own};
use layout::{Item, named};
use lots::Kind;
use octets::{is_security, pack, read_digits};
use thiserror::Error;

/// The first field of a row of totals that is malformed, or that its length is wrong.
#[derive(Clone, Copy, Debug, PartialEq, Eq, Error)]
pub enum BadField {
    #[error("not as long as a row of totals")]
    Length,
    #[error("an account that the family does not allocate from")]
    Account,
    #[error("no security that can be traded")]
    Security,
    #[error("no side that the family trades on")]
    Side,
    #[error("a kind other than 0 and 2")]
    Kind,
    #[error("a quantity that is not digits")]
    Quantity,
    #[error("an amount that is not digits")]
    Amount,
}

/// What a row of totals says.
#[derive(Clone, Copy)]
pub struct TotalRow {
    pub group: GroupName,
    pub kind: Kind,
    /// Trading units for board lots, shares for odd lots.
    pub quantity: u64,
    /// In ten-thousandths of a yuan.
    pub amount: u64,
}

/// The kind of a record: "0" for board lots, "2" for odd lots.
pub fn kind_of(part: &[u8]) -> Option<Kind>
    ensures { result ≡ kind_in part.now }
{
    match part {
        b"0" => Some(Kind::BoardLot),
        b"2" => Some(Kind::OddLot),
        _ => None,
    }
}

/// The side that a family trades on, by its character: "B", or "S" where it sells.
// The record's byte and no enum, since it is written back as it is.
pub fn side_of(rules: Rules, part: &[u8]) -> Option<u8>
    ensures { result ≡ side_in rules part.now }
{
    match part {
        b"B" => Some(b'B'),
        b"S" if rules.sells => Some(b'S'),
        _ => None,
    }
}

/// A security that can be traded: a security code, but not the one that stands for a retention.
pub fn read_security(part: &[u8]) -> Option<u64>
    ensures { result ≡ security_in part.now }
{
    if !is_security(part) || part == ALL_SECURITIES.as_slice() {
        return None;
    }
    Some(pack(part))
}

/// The group that fields name, of a family's accounts and sides, or which of them is malformed.
pub fn read_group(rules: Rules, fields: GroupFields<'_>) -> Result<GroupName, BadField>
    ensures { result ≡ group_in rules (group_by fields.entry) }
{
    let own = read_own(rules, fields.account).ok_or(BadField::Account)?;
    Ok(GroupName {
        account: own.number,
        security: read_security(fields.security).ok_or(BadField::Security)?,
        side: side_of(rules, fields.side).ok_or(BadField::Side)?,
    })
}

/// What a row of totals says, by a family's accounts and sides, or its first malformed field. Broker and date are not
/// judged, nor are the bytes after the amount.
// The day reads the same row by itself: it judges each part on a ground of its own, while this stops at the first bad field.
pub fn read_total<F: Family>(row: &[u8]) -> Result<TotalRow, BadField>
    ensures { result ≡ total_in F.Family.allows row.now }
{
    if row.len() != TOTAL_LENGTH {
        return Err(BadField::Length);
    }
    let group = read_group(F::rules(), GroupFields::of(&TOTAL_ROW, row))?;
    Ok(TotalRow {
        group,
        kind: kind_of(named(&TOTAL_ROW, Item::Kind, row)).ok_or(BadField::Kind)?,
        quantity: read_digits(named(&TOTAL_ROW, Item::Quantity, row)).ok_or(BadField::Quantity)?,
        amount: read_digits(named(&TOTAL_ROW, Item::Amount, row)).ok_or(BadField::Amount)?,
    })
}
