// The replies to a retention: one for each total of the groups that it takes.
ghost use Rattle.std.specs.Prelude.{◌≡◌, ◌≤◌, length};
ghost use Rattle.octets.specs.Splice.{spliced};
ghost use Rattle.families.specs.declared.family.Form.TheVariants.{Reply};
ghost use Rattle.groups.specs.Groups.{groups_of, totals_of};
ghost use Rattle.lines.specs.Taking.{flagged};
ghost use Rattle.lines.specs.Retained.{retained_of, totals_taken, retained_replies};

use families::{Family, Form};
use forms::{Retained, put_forms_from};
use groups::{GroupTable, Total};

// Whether the group of a number is taken.
fn is_flagged(taken: &[bool], number: usize) -> bool
    ensures { result ≡ flagged taken.now number }
{
    taken.get(number).is_some_and(|flag| *flag)
}

// The reply for one total. Broker and date come side by side for the reason that `GroupTable::heading` gives.
fn reply_for(table: &GroupTable, total: Total, broker: u32, date: u32) -> Retained
    ensures { result ≡ retained_of broker date (groups_of table.now) total }
{
    Retained {
        heading: table.heading(total.group, broker, date),
        kind: total.kind,
        quantity: total.quantity,
        amount: total.amount,
    }
}

// The totals that are answered are filtered twice, to count and to write: a function can't hand out a chain with a closure.

/// How many replies there are: one for each total of the groups that are taken.
pub fn answered_count(table: &GroupTable, taken: &[bool]) -> usize
    ensures { result ≡ length (totals_taken (flagged taken.now) (totals_of table.now)) }
{
    table
        .totals()
        .iter()
        .filter(|total| is_flagged(taken, total.group))
        .count()
}

/// Inner: writes the replies to a retention one behind another from the front of a buffer, in the order in which the totals were
/// accepted, and leaves every other byte.
pub fn put_retained<F: Family>(
    buf: &mut [u8],
    table: &GroupTable,
    taken: &[bool],
    broker: u32,
    date: u32,
)
    requires { length (retained_replies (F.layout Reply) broker date (groups_of table.now)
        (totals_taken (flagged taken.now) (totals_of table.now))) ≤ length buf.old }
    ensures { buf.new ≡ spliced buf.old 0 (retained_replies (F.layout Reply) broker date
        (groups_of table.now) (totals_taken (flagged taken.now) (totals_of table.now))) }
{
    let replies = table
        .totals()
        .iter()
        .filter(|t| is_flagged(taken, t.group))
        .map(|t| reply_for(table, *t, broker, date));
    put_forms_from::<F, Retained, _>(buf, Form::Reply, replies);
}
