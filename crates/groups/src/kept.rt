// What is kept of a day's groups.
ghost use Rattle.std.specs.Prelude.{◌≡◌, ◌≤◌, length, take};
ghost use Rattle.groups.specs.Sums.{SharesFit, CentsFit};
ghost use Rattle.groups.specs.Each.{OneOfEach, OfGroups};
ghost use Rattle.groups.specs.Limits.{most_groups, most_totals};

use forms::GroupName;
use lots::{Cents, Kind, Shares, UnitSize};

/// The most groups of a day.
pub const MOST_GROUPS: usize = 64;

/// The most totals of a day: one for each group and kind.
pub const MOST_TOTALS: usize = 128;

/// The most shares that a group's totals come to.
pub const MOST_SHARES: u64 = 99_999_999;

/// The most cents that a group's totals come to.
pub const MOST_CENTS: u64 = 99_999_999_999_999;

/// A group of a day. The default, nobody's, fills the places of the table that no group has.
#[derive(Clone, Copy, Default)]
pub struct Group {
    pub name: GroupName,
    pub size: UnitSize,
    pub retained: bool,
}

/// A group with its number.
#[derive(Clone, Copy)]
pub struct Place {
    // A byte, as an entry of the ledger has it; the table counts its places in a `usize`.
    pub number: u8,
    pub group: Group,
}

/// A total that was accepted. The default, of nothing, fills the places of the table that no total has.
#[derive(Clone, Copy, Default)]
pub struct Total {
    /// The number of its group.
    pub group: usize,
    pub kind: Kind,
    /// Trading units for board lots, shares for odd lots.
    pub quantity: u32,
    /// The shares in the quantity.
    pub shares: Shares,
    pub amount: Cents,
}

/// What a group's totals come to: the sums of their shares and of their amounts.
#[derive(Clone, Copy, Default)]
pub struct Traded {
    pub shares: Shares,
    pub amount: Cents,
}

/// The groups of a day in order of their number, and their totals in the order in which they were accepted.
// Arrays with their counts: a table is `Copy`, as an `ArrayVec` is not.
#[derive(Clone, Copy)]
pub struct GroupTable {
    pub(crate) groups: [Group; MOST_GROUPS],
    pub(crate) count: usize,
    pub(crate) totals: [Total; MOST_TOTALS],
    pub(crate) accepted: usize,
    ghost few: { count ≤ most_groups },
    ghost fit: { accepted ≤ most_totals },
    ghost places: { length groups ≡ most_groups },
    ghost room: { length totals ≡ most_totals },
    ghost each: { OneOfEach (take accepted totals) },
    ghost of_groups: { OfGroups count (take accepted totals) },
    ghost shares_fit: { SharesFit (take accepted totals) },
    ghost cents_fit: { CentsFit (take accepted totals) },
}
