// Asking and changing the table of groups.
ghost use Rattle.std.specs.Prelude.{◌≡◌, ◌<◌, not, ◌&&◌, [], ◌∷◌, ◌++◌, length, IfSome, if◌then◌else◌, OnSome, nat_lt};
ghost use Rattle.std.specs.List.{slice_get};
ghost use Rattle.groups.specs.Limits.{most_groups};
ghost use Rattle.groups.specs.Sums.{traded_by, comes_over};
ghost use Rattle.groups.specs.Groups.{groups_of, totals_of, number_of, has_total, sealed_by, name_at, heading_at, retained_at, place_at, place_of};

use crate::kept::{
    Group, GroupTable, MOST_CENTS, MOST_GROUPS, MOST_SHARES, MOST_TOTALS, Place, Total, Traded,
};
use forms::{GroupName, Heading};
use lots::{Cents, Kind, Shares};

/// Whether a group that has traded so much comes over its limits with so much more.
pub fn is_over(traded: Traded, shares: Shares, amount: Cents) -> bool
    ensures { result ≡ comes_over traded shares.count amount.count }
{
    traded.shares.count.saturating_add(shares.count) > MOST_SHARES
        || traded.amount.count.saturating_add(amount.count) > MOST_CENTS
}

impl GroupTable {
    /// A table of no groups.
    pub fn new() -> GroupTable
        ensures groups { groups_of result ≡ [] }
        ensures totals { totals_of result ≡ [] }
    {
        GroupTable {
            groups: [Group::default(); MOST_GROUPS],
            count: 0,
            totals: [Total::default(); MOST_TOTALS],
            accepted: 0,
        }
    }

    // The groups in order of their number.
    fn groups(&self) -> &[Group]
        ensures { result.now ≡ groups_of self.now }
    {
        &self.groups[0..self.count]
    }

    /// How many groups there are.
    pub fn count(&self) -> usize
        ensures { result ≡ length (groups_of self.now) }
    {
        self.count
    }

    /// The group of a number, or nothing where there is none.
    pub fn get(&self, number: usize) -> Option<Group>
        ensures value { result ≡ slice_get (groups_of self.now) number }
        ensures bound { OnSome result (number < most_groups) }
    {
        self.groups().get(number).copied()
    }

    /// The name of the group of a number, nobody's where there is none.
    // Nobody's name rather than an `Option`: a record has a name whatever the number of its group.
    pub fn name_of(&self, number: usize) -> GroupName
        ensures { result ≡ name_at (groups_of self.now) number }
    {
        self.get(number).unwrap_or_default().name
    }

    /// What a record of a broker and a date says of the group of a number.
    // Broker and date side by side: a struct of the two would be made for one call, and take no clause away.
    pub fn heading(&self, number: usize, broker: u32, date: u32) -> Heading
        ensures { result ≡ heading_at broker date (groups_of self.now) number }
    {
        Heading {
            broker,
            date,
            group: self.name_of(number),
        }
    }

    /// How many totals there are.
    // With `total`, as groups have `count` and `get`: `totals` lends a part of the table, and these give numbers and copies.
    pub fn total_count(&self) -> usize
        ensures { result ≡ length (totals_of self.now) }
    {
        self.accepted
    }

    /// Total `i` in the order of acceptance, or nothing past the last.
    pub fn total(&self, i: usize) -> Option<Total>
        ensures { result ≡ slice_get (totals_of self.now) i }
    {
        self.totals().get(i).copied()
    }

    /// The totals in the order of acceptance.
    pub fn totals(&self) -> &[Total]
        ensures { result.now ≡ totals_of self.now }
    {
        &self.totals[0..self.accepted]
    }

    /// The number of the group of a name, or nothing where it has no total.
    // That it is below 64 is promised wherever a number is answered, and is no type: entries and callers have plain numbers.
    pub fn find(&self, name: GroupName) -> Option<usize>
        ensures value { result ≡ number_of name 0 (groups_of self.now) }
        ensures bound { IfSome result (λ n. n < most_groups) }
    {
        self.groups().iter().position(|group| group.name == name)
    }

    /// The group of a number, with it, or nothing where there is none.
    pub fn place_at(&self, number: usize) -> Option<Place>
        ensures { result ≡ place_at (groups_of self.now) number }
    {
        let group = self.get(number)?;
        // It fits a byte, as there are at most 64 groups.
        let number = number as u8;
        Some(Place { number, group })
    }

    /// The group of a name with its number, or nothing where it has no total.
    pub fn place(&self, name: GroupName) -> Option<Place>
        ensures { result ≡ place_of name (groups_of self.now) }
    {
        self.place_at(self.find(name)?)
    }

    /// Whether a group has a total of a kind.
    pub fn has_total(&self, number: usize, kind: Kind) -> bool
        ensures { result ≡ has_total number kind (totals_of self.now) }
    {
        let mut totals = self.totals().iter();
        totals.any(|total| total.group == number && total.kind == kind)
    }

    /// Whether an account is sealed: a retention has taken one of its groups.
    pub fn is_sealed(&self, account: u32) -> bool
        ensures { result ≡ sealed_by account (groups_of self.now) }
    {
        let mut groups = self.groups().iter();
        groups.any(|group| group.retained && group.name.account == account)
    }

    /// What a group's totals come to.
    pub fn traded(&self, number: usize) -> Traded
        ensures { result ≡ traded_by number (totals_of self.now) }
    {
        // A loop: that the sums fit is known of the whole table, and a `sum` would want it of each total before.
        let mut traded = Traded::default();
        for total in self.totals() {
            if total.group == number {
                traded.shares.count += total.shares.count;
                traded.amount.count += total.amount.count;
            }
        }
        traded
    }

    // `add` and `accept` answer only whether: the grounds are told by the crate `judge`, which judges a total before it comes here.
    /// Makes a group the last; refuses, and changes nothing, exactly when there are as many as a day can have.
    pub fn add(&mut self, group: Group) -> bool
        ensures answer { result ≡ nat_lt (length (groups_of self.old)) most_groups }
        ensures groups { groups_of self.new ≡ (if result then groups_of self.old ++ group ∷ [] else groups_of self.old) }
        ensures totals { totals_of self.new ≡ totals_of self.old }
    {
        let at = self.count;
        if at >= MOST_GROUPS {
            return false;
        }
        self.groups[at] = group;
        self.count = at + 1;
        true
    }

    // Whether a total may be accepted.
    fn may_accept(&self, total: Total) -> bool
        ensures { result ≡ (nat_lt total.group (length (groups_of self.now)) && not
            (has_total total.group total.kind (totals_of self.now)) && not
            (comes_over (traded_by total.group (totals_of self.now)) total.shares.count
            total.amount.count)) }
    {
        total.group < self.count
            && !self.has_total(total.group, total.kind)
            && !is_over(self.traded(total.group), total.shares, total.amount)
    }

    /// Makes a total the last; refuses, and changes nothing, exactly when there is no group of its number, the group has a total of
    /// its kind, or the group would come over 99,999,999 shares or 99,999,999,999,999 cents.
    pub fn accept(&mut self, total: Total) -> bool
        ensures answer { result ≡ (nat_lt total.group (length (groups_of self.old)) && not
            (has_total total.group total.kind (totals_of self.old)) && not
            (comes_over (traded_by total.group (totals_of self.old)) total.shares.count
            total.amount.count)) }
        ensures totals { totals_of self.new ≡ (if result then totals_of self.old ++ total ∷ [] else totals_of self.old) }
        ensures groups { groups_of self.new ≡ groups_of self.old }
    {
        if !self.may_accept(total) {
            return false;
        }
        let at = self.accepted;
        self.totals[at] = total;
        self.accepted = at + 1;
        true
    }

    /// Makes the group of a number retained; where there is none, nothing changes.
    pub fn retain(&mut self, number: usize)
        ensures groups { groups_of self.new ≡ retained_at number (groups_of self.old) }
        ensures totals { totals_of self.new ≡ totals_of self.old }
    {
        if number < self.count {
            self.groups[number].retained = true;
        }
    }
}
