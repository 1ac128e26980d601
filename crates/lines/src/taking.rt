// The groups that a retention takes: the unfinished ones of its account.
ghost use Rattle.std.specs.Prelude.{◌≡◌, ◌≤◌, length, ◌==◌};
ghost use Rattle.groups.specs.Groups.{groups_of, totals_of, retained_at, any_below};
ghost use Rattle.lines.specs.Taking.{taken_at, flagged, rows_left, marked};

use crate::open::standing_of;
use groups::{GroupTable, MOST_GROUPS};
use ledger::Ledger;
use lots::Kind;
use std::array;

/// Which groups are taken, by their number.
// Flags by number and no list of numbers: each total asks whether its group is taken.
pub type Taken = [bool; MOST_GROUPS];

// Whether a retention of an account takes the group of a number. The rows of an account's own groups alone are gone through.
fn is_taken<L: Ledger>(table: &GroupTable, ledger: &L, account: u32, number: usize) -> bool
    ensures { result ≡ taken_at (groups_of table.now) (totals_of table.now) (L.rows ledger.now) account number }
{
    table.place_at(number).is_some_and(|place| {
        place.group.name.account == account && standing_of(table, ledger, place).is_unfinished()
    })
}

/// The groups that a retention of an account takes: those of the account that are unfinished.
pub fn taken_by<L: Ledger>(table: &GroupTable, ledger: &L, account: u32) -> Taken
    ensures { flagged result ≡ taken_at (groups_of table.now) (totals_of table.now) (L.rows ledger.now) account }
{
    array::from_fn(|n| is_taken(table, ledger, account, n))
}

// Flags are asked for as a slice, here and in what replies: the promises hold of flags of any length, and `take_groups` alone bounds it.

/// Whether a group is taken.
pub fn is_any_taken(taken: &[bool]) -> bool
    ensures { result ≡ any_below (flagged taken.now) (length taken.now) }
{
    taken.contains(&true)
}

// Takes out the rows of a group, of either kind, and makes it retained.
fn take_group<L: Ledger>(table: &mut GroupTable, ledger: &mut L, number: u8)
    ensures list { L.rows ledger.new ≡ rows_left (λ n. n == number) (L.rows ledger.old) }
    ensures same { L.room ledger.new ≡ L.room ledger.old }
    ensures kept { L.lent ledger.new ≡ L.lent ledger.old }
    ensures groups { groups_of table.new ≡ retained_at number (groups_of table.old) }
    ensures totals { totals_of table.new ≡ totals_of table.old }
{
    ledger.remove(number, u8::from(Kind::BoardLot));
    ledger.remove(number, u8::from(Kind::OddLot));
    table.retain(usize::from(number));
}

/// Inner: takes out the rows of the groups that are taken, and makes these retained.
pub fn take_groups<L: Ledger>(table: &mut GroupTable, ledger: &mut L, taken: &[bool])
    requires { length taken.now ≤ 64 }
    ensures list { L.rows ledger.new ≡ rows_left (flagged taken.now) (L.rows ledger.old) }
    ensures same { L.room ledger.new ≡ L.room ledger.old }
    ensures kept { L.lent ledger.new ≡ L.lent ledger.old }
    ensures groups { groups_of table.new ≡ marked (flagged taken.now) 0 (groups_of table.old) }
    ensures totals { totals_of table.new ≡ totals_of table.old }
{
    for (n, flag) in taken.iter().enumerate() {
        if *flag {
            // It fits a byte: there are at most 64 flags.
            take_group(table, ledger, n as u8);
        }
    }
}
