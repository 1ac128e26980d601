// Judging what a line names: the day, the account, the group.
ghost use Rattle.std.specs.Prelude.{◌≡◌, ◌<◌, IfSome, IfOk, Some};
ghost use Rattle.std.specs.Result.{result_err};
ghost use Rattle.groups.specs.Groups.{groups_of};
ghost use Rattle.groups.specs.Limits.{most_groups};
ghost use Rattle.judge.specs.Grounds.{first_of};
ghost use Rattle.families.specs.Accounts.{account_of};
ghost use Rattle.families.specs.Parts.{group_by, heading_by, retention_by};
ghost use Rattle.judge.specs.Heading.{opened_on, of_broker, of_date, in_hours, sealed_account, heading_grounds, group_grounds, named_grounds, retention_grounds, number_named, place_named, target_of, lot_of, Reads};

use crate::grounds::{Ground, ensure};
use families::{
    GroupFields, LineHeading, OwnAccount, RetentionLine, Rules, Stem, read_account, read_broker,
    read_own,
};
use forms::{kind_of, read_group, side_of};
use groups::{GroupTable, Place};
use lots::{Kind, Lot};
use octets::{is_clock, is_date, is_security, read_digits};

/// The largest trade number.
pub const LAST_TRADE_NUMBER: u64 = 99_999_999;

/// Lines are taken from this clock on.
pub const FIRST_CLOCK: u64 = 150_000;

/// Filings and deletions are taken before this clock.
pub const FILING_ENDS: u64 = 180_000;

/// Retentions are taken before this clock.
pub const RETENTION_ENDS: u64 = 190_000;

/// How a day was opened. A flag beside the figures: what rows and replies say is defined on every day, and so broker and date have a
/// value on every day.
#[derive(Clone, Copy, Default)]
pub struct Opened {
    /// Whether the broker, the date and the first trade number are good; where not, these are 0.
    pub good: bool,
    /// Four characters, the first in the low byte.
    pub broker: u32,
    /// YYYYMMDD.
    pub date: u32,
    /// The first trade number.
    pub first: u32,
}

impl Opened {
    // Three parameters: whoever opens a day gives the three so, good or bad.
    /// A day of a broker (four of A–Z and 0–9) and a real date, whose trade numbers begin at `first` (up to 99,999,999).
    pub fn on(broker: &[u8], date: u64, first: u64) -> Opened
        ensures { result ≡ opened_on broker.now date first }
    {
        match read_broker(broker) {
            Some(broker) if is_date(date) && first <= LAST_TRADE_NUMBER => Opened {
                good: true,
                broker,
                // Both were just tested; a `try_from` would want a case that never comes.
                date: date as u32,
                first: first as u32,
            },
            _ => Opened::default(),
        }
    }

    /// Whether a field is the day's broker.
    pub fn is_broker(self, part: &[u8]) -> bool
        ensures { result ≡ of_broker self part.now }
    {
        read_broker(part).is_some_and(|code| code == self.broker)
    }

    /// Whether a field is the day's date.
    pub fn is_of_date(self, part: &[u8]) -> bool
        ensures { result ≡ of_date self part.now }
    {
        read_digits(part).is_some_and(|date| date == u64::from(self.date))
    }
}

// Whether a clock is a time of day from 15:00:00 on and before another. Three tests, as the rule has them.
fn is_in_hours(clock: u64, ends: u64) -> bool
    ensures { result ≡ in_hours clock ends }
{
    is_clock(clock) && clock >= FIRST_CLOCK && clock < ends
}

/// What lines and totals of a day are judged against: how it was opened, what its family allows, and its groups so far.
#[derive(Clone, Copy)]
pub struct DayBasis<'a> {
    pub opened: Opened,
    pub rules: Rules,
    pub table: &'a GroupTable,
}

/// What a line names: its account's stem, the group and the kind.
#[derive(Clone, Copy)]
pub struct Target {
    pub stem: Stem,
    pub place: Place,
    pub kind: Kind,
}

impl Target {
    /// In which kind of lots, and in which trading unit.
    pub fn lot(self) -> Lot
        ensures { result ≡ lot_of self }
    {
        Lot {
            kind: self.kind,
            size: self.place.group.size,
        }
    }
}

// What a heading reads as, before its group is looked up.
#[derive(Clone, Copy)]
struct Reading {
    own: OwnAccount,
    kind: Kind,
}

impl DayBasis<'_> {
    // Refuses a filing or a deletion on the first of the grounds on the day, broker, account, security, side, kind, date and
    // clock that applies.
    fn read_heading(self, heading: LineHeading<'_>, clock: u64) -> Result<Reading, Ground>
        ensures judged { result_err result ≡ first_of
            (heading_grounds self.entry.opened self.entry.rules (heading_by heading.entry) clock) }
        ensures read { IfOk result (λ x. Reads self.entry.rules (heading_by heading.entry) x.own x.kind) }
    {
        ensure(self.opened.good, Ground::DayFigures)?;
        ensure(self.opened.is_broker(heading.broker), Ground::Broker)?;
        let own = read_own(self.rules, heading.group.account).ok_or(Ground::Account)?;
        ensure(is_security(heading.group.security), Ground::Security)?;
        side_of(self.rules, heading.group.side).ok_or(Ground::Side)?;
        let kind = kind_of(heading.kind).ok_or(Ground::Kind)?;
        ensure(self.opened.is_of_date(heading.date), Ground::Date)?;
        ensure(is_in_hours(clock, FILING_ENDS), Ground::Clock)?;
        Ok(Reading { own, kind })
    }

    /// The group that is named, with its number, or nothing where it has no total.
    pub fn place_of(self, group: GroupFields<'_>) -> Option<Place>
        ensures { result ≡ place_named self.entry.rules (groups_of self.entry.table.now) (group_by group.entry) }
    {
        let name = read_group(self.rules, group).ok()?;
        self.table.place(name)
    }

    // The group of a filing or a deletion, or the first of the grounds on it that applies: its account is sealed, or it has no total.
    fn judge_group(self, group: GroupFields<'_>, account: u32) -> Result<Place, Ground>
        requires { account_of group.account.now ≡ Some account }
        ensures judged { result_err result ≡ first_of
            (group_grounds self.entry.rules (groups_of self.entry.table.now)
            (group_by group.entry)) }
        ensures place { IfOk result (λ p. place_named self.entry.rules (groups_of self.entry.table.now) (group_by group.entry) ≡ Some p) }
    {
        ensure(!self.table.is_sealed(account), Ground::Sealed)?;
        self.place_of(group).ok_or(Ground::NoTotal)
    }

    /// What a filing or a deletion names, or the first of the grounds on that which applies: those on the day, broker, account,
    /// security, side, kind, date and clock, and then that its account is sealed or its group has no total.
    pub fn judge_names(self, heading: LineHeading<'_>, clock: u64) -> Result<Target, Ground>
        ensures judged { result_err result ≡ first_of
            (named_grounds self.entry.opened self.entry.rules (groups_of self.entry.table.now)
            (heading_by heading.entry) clock) }
        ensures target { IfOk result (λ t. target_of self.entry.rules
            (groups_of self.entry.table.now) (heading_by heading.entry) ≡ Some t) }
    {
        let Reading { own, kind } = self.read_heading(heading, clock)?;
        let place = self.judge_group(heading.group, own.number)?;
        let stem = own.stem;
        Ok(Target { stem, place, kind })
    }

    // Whether an account is one that is sealed.
    pub(crate) fn is_sealed(self, account: &[u8]) -> bool
        ensures { result ≡ sealed_account (groups_of self.entry.table.now) account.now }
    {
        read_account(account).is_some_and(|number| self.table.is_sealed(number))
    }

    /// The number of the group that is named, or nothing where it has no total.
    pub fn number_of(self, group: GroupFields<'_>) -> Option<usize>
        ensures value { result ≡ number_named self.entry.rules (groups_of self.entry.table.now) (group_by group.entry) }
        ensures bound { IfSome result (λ n. n < most_groups) }
    {
        let name = read_group(self.rules, group).ok()?;
        self.table.find(name)
    }

    /// The account of a retention, or the first of the grounds on the day, broker, account, date, clock, sealing, new account and
    /// stem that applies.
    pub fn judge_retention(self, retention: RetentionLine<'_>, clock: u64) -> Result<u32, Ground>
        ensures judged { result_err result ≡ first_of
            (retention_grounds self.entry.opened self.entry.rules (groups_of self.entry.table.now)
            (retention_by retention.entry) clock) }
        ensures account { IfOk result (λ n. account_of retention.entry.account.now ≡ Some n) }
    {
        ensure(self.opened.good, Ground::DayFigures)?;
        ensure(self.opened.is_broker(retention.broker), Ground::Broker)?;
        let own = read_own(self.rules, retention.account).ok_or(Ground::Account)?;
        ensure(self.opened.is_of_date(retention.date), Ground::Date)?;
        ensure(is_in_hours(clock, RETENTION_ENDS), Ground::Clock)?;
        ensure(!self.table.is_sealed(own.number), Ground::Sealed)?;
        ensure(
            retention.new_account == retention.account,
            Ground::NewAccount,
        )?;
        ensure(own.stem == self.rules.foreign, Ground::RetentionStem)?;
        Ok(own.number)
    }
}
