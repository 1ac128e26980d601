//! Transfers: lines that are handed on to a day, and counted.
#![tactic(auto)]

mod counts;

ghost use Rattle.std.specs.Prelude.{◌≡◌, length};
ghost use Rattle.octets.specs.Splice.{spliced};
ghost use Rattle.book.specs.Book.{numbered};
ghost use Rattle.book.specs.Calls.{run};
ghost use Rattle.transfer.specs.Transfers.{nought, handed_outcome, handed_on, counts_after};

use book::Day;
pub use counts::{Counts, MOST_HANDED, MOST_REFUSED};
use families::Family;
use judge::{Ground, ensure};
use ledger::Ledger;

/// A transfer that runs. It keeps count in a record that its caller lends; when it ends, on every way out, both counts are 0.
pub struct Transfer<'a> {
    counts: &'a mut Counts,
}

impl Drop for Transfer<'_> {
    fn drop(self)
        ensures { self.exit.0.now ≡ nought }
    {
        self.counts.clear();
        let Transfer { counts: _ } = self;
    }
}

impl<'a> Transfer<'a> {
    /// Begins a transfer on a record. While it runs the record is lent, so that no other can be begun on it.
    pub fn begin(counts: &'a mut Counts) -> Transfer<'a>
        ensures counts { result.counts.now ≡ nought }
        ensures lender { result.counts.ghost_name ≡ counts.entry.ghost_name }
    {
        counts.clear();
        Transfer { counts }
    }

    /// What it has counted.
    pub fn counts(&self) -> Counts
        ensures { result ≡ self.now.counts.now }
    {
        *self.counts
    }

    /// Hands a line on to a day, which takes it as its own line call does, and counts it; or refuses it, where over 50 lines were
    /// refused or 8,000 handed on, and changes nothing.
    ///
    /// The day is what its own calls make of it, the line or none, and so the law of sums holds of it as of any other.
    pub fn line<F: Family, L: Ledger>(
        &mut self,
        day: &mut Day<F, L>,
        line: &[u8],
        clock: u64,
        replies: &mut [u8],
    ) -> Result<usize, Ground>
        ensures answer { numbered result ≡ (handed_outcome day.old self.old.counts.now line.now clock (length replies.old)).answer }
        ensures after { day.new ≡ (handed_outcome day.old self.old.counts.now line.now clock (length replies.old)).book }
        ensures kept { day.new.lent ≡ day.old.lent }
        ensures calls { day.new ≡ run day.old (handed_on self.old.counts.now line.now clock replies.old) }
        ensures memory { replies.new ≡ spliced replies.old 0
            (handed_outcome day.old self.old.counts.now line.now clock
            (length replies.old)).replies }
        ensures counts { self.new.counts.now ≡ counts_after self.old.counts.now (numbered result) }
        ensures lender { self.new.counts.ghost_name ≡ self.old.counts.ghost_name }
    {
        ensure(!self.counts.is_spent(), Ground::Transfer)?;
        let answer = day.line(line, clock, replies);
        self.counts.count(answer.is_err());
        answer
    }

    /// Ends the transfer: both counts are 0.
    pub fn end(self)
        ensures { self.exit.0.now ≡ nought }
    {
        drop(self);
    }
}
