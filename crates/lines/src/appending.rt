// Appending several entries to a ledger.
ghost use Rattle.std.specs.Prelude.{◌≡◌, ◌+◌, ◌≤◌, ◌++◌, length};

use ledger::{Entry, Ledger};

/// Appends entries to a ledger that has as many free places, in order.
pub(crate) fn append_all<L: Ledger>(ledger: &mut L, entries: &[Entry])
    requires { length (L.rows ledger.old) + length entries.now ≤ L.room ledger.old }
    ensures list { L.rows ledger.new ≡ L.rows ledger.old ++ entries.now }
    ensures same { L.room ledger.new ≡ L.room ledger.old }
    ensures kept { L.lent ledger.new ≡ L.lent ledger.old }
{
    for e in entries {
        ledger.append(*e);
    }
}
