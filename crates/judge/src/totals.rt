// Judging a total.
ghost use Rattle.std.specs.Prelude.{◌≡◌};
ghost use Rattle.std.specs.Result.{result_err};
ghost use Rattle.groups.specs.Groups.{groups_of, totals_of};
ghost use Rattle.judge.specs.Grounds.{first_of};
ghost use Rattle.judge.specs.Totals.{total_terms, size_agrees, given, over_with, is_full, placed_grounds, asked_by, plain_by, asked_plainly, total_grounds};

use crate::grounds::{Ground, ensure};
use crate::heading::DayBasis;
use families::{GroupFields, read_own};
use forms::{read_security, side_of};
use groups::{GroupTable, MOST_CENTS, MOST_GROUPS, MOST_SHARES, Traded, is_over};
use lots::{Cents, Kind, Lot, UnitSize};

/// The figures of a total that are in range. The default, of nothing, stands for figures that are bad.
// So each part of a total has a value, and the grounds alone tell what is bad.
#[derive(Clone, Copy, Default)]
pub struct TotalTerms {
    pub size: UnitSize,
    pub quantity: u32,
    pub amount: Cents,
}

impl TotalTerms {
    /// In which kind of lots, and in which trading unit, a total of a kind is.
    pub fn lot(self, kind: Kind) -> Lot
        ensures { result ≡ record { kind = kind; size = self.size } }
    {
        Lot {
            kind,
            size: self.size,
        }
    }
}

/// A total's figures: a trading unit of 1, 10, 100 or 1,000 shares, a quantity of 1 to 99,999,999, and an amount of whole
/// cents, at least one and at most what its field holds; nothing where one of them is bad.
pub fn read_terms(unit: u64, quantity: u64, amount: u64) -> Option<TotalTerms>
    ensures { result ≡ total_terms unit quantity amount }
{
    let size = UnitSize::try_from(unit).ok()?;
    if !(1..=MOST_SHARES).contains(&quantity) {
        return None;
    }
    let amount = Cents::from_ten_thousandths(amount)?;
    if !(1..=MOST_CENTS).contains(&amount.count) {
        return None;
    }
    // The quantity was just tested; a `try_from` would want a case that never comes.
    Some(TotalTerms {
        size,
        quantity: quantity as u32,
        amount,
    })
}

/// A total by its figures, as callers have them.
#[derive(Clone, Copy, Debug)]
pub struct PlainTotal<'a> {
    pub group: GroupFields<'a>,
    /// 0 for board lots, 2 for odd lots; any other is refused.
    pub kind: u8,
    /// The shares in a trading unit.
    pub unit: u64,
    /// Trading units for board lots, shares for odd lots.
    pub quantity: u64,
    /// In ten-thousandths of a yuan.
    pub amount: u64,
}

impl<'a> PlainTotal<'a> {
    /// As it is asked for: it has no broker and no date, and so is of every day.
    pub fn asked(self) -> Asked<'a>
        ensures { asked_by result ≡ asked_plainly (plain_by self.entry) }
    {
        Asked {
            of_broker: true,
            of_date: true,
            group: self.group,
            kind: Kind::try_from(self.kind).ok(),
            terms: read_terms(self.unit, self.quantity, self.amount),
        }
    }
}

/// A total as it is asked for: whether broker and date are the day's, what names its group, its kind and its figures.
// No Model: it would spare the clauses a word, `asked_by`, and take none away.
#[derive(Clone, Copy)]
pub struct Asked<'a> {
    // Flags, since a plain total has neither broker nor date and is of the day; a row of totals has both.
    pub of_broker: bool,
    pub of_date: bool,
    pub group: GroupFields<'a>,
    pub kind: Option<Kind>,
    pub terms: Option<TotalTerms>,
}

impl DayBasis<'_> {
    /// Refuses a total on the first of the grounds on the day, broker, account, security, side, kind, date, sealing and figures
    /// that applies.
    pub fn judge_total(self, asked: Asked<'_>) -> Result<(), Ground>
        ensures { result_err result ≡ first_of
            (total_grounds self.entry.opened self.entry.rules (groups_of self.entry.table.now)
            (asked_by asked.entry)) }
    {
        ensure(self.opened.good, Ground::DayFigures)?;
        ensure(asked.of_broker, Ground::Broker)?;
        read_own(self.rules, asked.group.account).ok_or(Ground::Account)?;
        read_security(asked.group.security).ok_or(Ground::Security)?;
        side_of(self.rules, asked.group.side).ok_or(Ground::Side)?;
        asked.kind.ok_or(Ground::Kind)?;
        ensure(asked.of_date, Ground::Date)?;
        ensure(!self.is_sealed(asked.group.account), Ground::Sealed)?;
        ensure(asked.terms.is_some(), Ground::TotalFigures)
    }
}

// The place of a total in a day's table: the number of its group, if that has one.
#[derive(Clone, Copy)]
struct TotalPlace<'a> {
    table: &'a GroupTable,
    number: Option<usize>,
}

impl TotalPlace<'_> {
    // Whether the group, if there is one, has trading units of a size.
    fn is_of_size(self, size: UnitSize) -> bool
        ensures { result ≡ size_agrees (groups_of self.entry.table.now) self.entry.number size }
    {
        self.number
            .and_then(|n| self.table.get(n))
            .is_none_or(|group| group.size == size)
    }

    // Whether the group, if there is one, has a total of a kind.
    fn is_given(self, kind: Kind) -> bool
        ensures { result ≡ given (totals_of self.entry.table.now) self.entry.number kind }
    {
        self.number.is_some_and(|n| self.table.has_total(n, kind))
    }

    // Whether the group comes over its most shares or cents with a further total.
    fn comes_over(self, kind: Kind, terms: TotalTerms) -> bool
        ensures { result ≡ over_with (totals_of self.entry.table.now) self.entry.number kind terms }
    {
        let traded = self
            .number
            .map_or(Traded::default(), |n| self.table.traded(n));
        is_over(
            traded,
            terms.lot(kind).shares_in(terms.quantity),
            terms.amount,
        )
    }

    // Whether there is no place for a further group, where one is wanted.
    fn is_full(self) -> bool
        ensures { result ≡ is_full (groups_of self.entry.table.now) self.entry.number }
    {
        self.number.is_none() && self.table.count() >= MOST_GROUPS
    }
}

/// Refuses a total of good figures on the first of the grounds on a group's trading unit, its totals so far, its limits and the
/// table's that applies. `number` is that of its group, if it has one.
pub fn judge_placed(
    table: &GroupTable,
    number: Option<usize>,
    kind: Kind,
    terms: TotalTerms,
) -> Result<(), Ground>
    ensures { result_err result ≡ first_of (placed_grounds (groups_of table.now) (totals_of table.now) number kind terms) }
{
    // Made here of two of the four parameters: only this file needs the two together.
    let place = TotalPlace { table, number };
    ensure(place.is_of_size(terms.size), Ground::TotalFigures)?;
    ensure(!place.is_given(kind), Ground::TotalGiven)?;
    ensure(!place.comes_over(kind, terms), Ground::GroupFigures)?;
    ensure(!place.is_full(), Ground::GroupCount)
}
