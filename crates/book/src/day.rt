// A day of a family over a ledger.
ghost use Rattle.std.specs.Prelude.{◌≡◌, List};
ghost use Rattle.groups.specs.Groups.{groups_of};
ghost use Rattle.book.specs.Book.{opened_book, records_by};
ghost use Rattle.book.specs.Calls.{Call};
ghost use Rattle.book.specs.Law.{Balanced};

use families::{Family, Form};
use groups::GroupTable;
use judge::{DayBasis, Opened};
use ledger::Ledger;
use std::marker::{Model, PhantomData};

/// A day for one family of accounts. It owns its ledger, so that nothing else changes it.
#[derive(Drop)]
pub struct Day<F: Family, L: Ledger> {
    pub(crate) family: PhantomData<F>,
    pub(crate) opened: Opened,
    /// The next trade number.
    pub(crate) next: u32,
    pub(crate) table: GroupTable,
    pub(crate) ledger: L,
}

impl<F: Family, L: Ledger> Model for Day<F, L> {
    ghost use Rattle.groups.specs.Groups.{groups_of, totals_of};
    ghost use Rattle.book.specs.Book.{Book, records_by};

    ghost Value = { Book };

    ghost view = { λ d. record {
      rules = F.allows;
      records = records_by F.layout F.extent;
      opened =
          d.opened;
      next = d.next;
      groups = groups_of d.table;
      totals = totals_of d.table;
      rows =
          L.rows d.ledger;
      capacity = L.room d.ledger;
      lent = L.lent d.ledger;
    } };
}

impl<F: Family, L: Ledger> Day<F, L> {
    /// Opens a day for a broker (four of A–Z and 0–9) on a date (YYYYMMDD, 1990 to 2099), whose trade numbers begin at `first`
    /// (0 to 99,999,999), and empties the ledger. A day opened on bad figures refuses every line and every total.
    ///
    /// After any calls whatever, no share and no cent has gone astray: that is the law.
    // Broker, date and first trade number come one by one, good or bad, as `Opened::on` judges them.
    pub fn open(ledger: L, broker: &[u8], date: u64, first: u64) -> Day<F, L>
        ensures new { result ≡ opened_book F.allows (records_by F.layout F.extent) (L.room ledger) (L.lent ledger) broker.now date first }
        ensures law { (calls : List Call) → Balanced result calls }
    {
        let mut emptied = ledger;
        emptied.empty();
        let opened = Opened::on(broker, date, first);
        Day {
            family: PhantomData,
            opened,
            next: opened.first,
            table: GroupTable::new(),
            ledger: emptied,
        }
    }

    // What lines and totals of the day are judged against.
    pub(crate) fn basis(&self) -> DayBasis<'_>
        ensures opened { result.opened ≡ self.now.opened }
        ensures rules { result.rules ≡ self.now.rules }
        ensures groups { groups_of result.table.now ≡ self.now.groups }
    {
        DayBasis {
            opened: self.opened,
            rules: F::rules(),
            table: &self.table,
        }
    }

    /// The ledger, to look at.
    pub fn ledger(&self) -> &L
        ensures rows { L.rows result.now ≡ self.now.rows }
        ensures room { L.room result.now ≡ self.now.capacity }
        ensures lent { L.lent result.now ≡ self.now.lent }
    {
        &self.ledger
    }

    /// Ends the day and gives its ledger back, over the memory that it was lent.
    pub fn close(self) -> L
        ensures rows { L.rows result ≡ self.rows }
        ensures room { L.room result ≡ self.capacity }
        ensures lent { L.lent result ≡ self.lent }
    {
        let Day {
            family: _,
            opened: _,
            next: _,
            table: _,
            ledger,
        } = self;
        ledger
    }
}
