// What lines tell, as parts of their bytes.
ghost use Rattle.std.specs.Prelude.{◌≡◌};
ghost use Rattle.families.specs.Parts.{group_by, group_told};

use layout::{Field, Item, named};

/// The fields that name a group.
#[derive(Clone, Copy, Debug)]
pub struct GroupFields<'a> {
    pub account: &'a [u8],
    pub security: &'a [u8],
    pub side: &'a [u8],
}

impl<'a> GroupFields<'a> {
    /// The fields of a record that name its group, by the record's layout.
    pub fn of(fields: &[Field], record: &'a [u8]) -> GroupFields<'a>
        ensures { group_by result ≡ group_told fields.now «record».now }
    {
        GroupFields {
            account: named(fields, Item::Account, record),
            security: named(fields, Item::Security, record),
            side: named(fields, Item::Side, record),
        }
    }
}

/// The fields that name a line's broker, its group with the kind, and its day, as parts of the line.
#[derive(Clone, Copy, Debug)]
pub struct LineHeading<'a> {
    pub broker: &'a [u8],
    pub group: GroupFields<'a>,
    pub kind: &'a [u8],
    pub date: &'a [u8],
}

/// The fields of a filing's line, as parts of the line. One that the family's lines do not have is empty.
#[derive(Clone, Copy, Debug)]
pub struct FilingLine<'a> {
    pub heading: LineHeading<'a>,
    pub order: &'a [u8],
    pub new_broker: &'a [u8],
    pub new_account: &'a [u8],
    pub quantity: &'a [u8],
    pub amount: &'a [u8],
    pub order_type: &'a [u8],
}

/// The fields of a retention's line that count, as parts of the line.
#[derive(Clone, Copy, Debug)]
pub struct RetentionLine<'a> {
    pub broker: &'a [u8],
    pub account: &'a [u8],
    pub date: &'a [u8],
    pub new_account: &'a [u8],
}
