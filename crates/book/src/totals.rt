// Totals.
ghost use Rattle.std.specs.Prelude.{◌≡◌, ◌*◌, ◌<◌, false, cond, [], ◌∷◌, ◌++◌, length, is_some, unwrap_or, None, Ok, IfSome};
ghost use Rattle.lots.specs.Units.{shares_to_unit};
ghost use Rattle.groups.specs.Groups.{groups_of, totals_of};
ghost use Rattle.std.specs.Result.{result_err};
ghost use Rattle.judge.specs.Grounds.{first_of};
ghost use Rattle.judge.specs.Totals.{asked_by, plain_by, asked_plainly, is_full, placed_grounds};
ghost use Rattle.book.specs.Book.{numbered};
ghost use Rattle.book.specs.Totals.{row_terms, number_of_total, name_of_total, kind_of_total, terms_of_total, total_grounds_in, totalled, total_outcome, total_row_outcome};

use crate::day::Day;
use families::{Family, GroupFields, TOTAL_LENGTH, TOTAL_ROW};
use forms::{GroupName, kind_of, read_group};
use groups::{Group, GroupTable, Total};
use judge::{Asked, Ground, PlainTotal, TotalTerms, ensure, judge_placed, read_terms};
use layout::{Item, named};
use ledger::Ledger;
use lots::{Kind, Lot};
use octets::read_digits;

// The figures of a row of totals, with the shares in a trading unit beside it.
fn row_terms(row: &[u8], unit: u64) -> Option<TotalTerms>
    ensures { result ≡ row_terms row.now unit }
{
    let quantity = read_digits(named(&TOTAL_ROW, Item::Quantity, row))?;
    let amount = read_digits(named(&TOTAL_ROW, Item::Amount, row))?;
    read_terms(unit, quantity, amount)
}

impl<F: Family, L: Ledger> Day<F, L> {
    // The number of a total's group, if it has one.
    fn number_for(&self, asked: Asked<'_>) -> Option<usize>
        ensures { result ≡ number_of_total self.now (asked_by asked.entry) }
    {
        self.basis().number_of(asked.group)
    }

    // The name of a total's group; where it is malformed, and a ground refuses the total anyway, nobody's.
    fn name_for(&self, asked: Asked<'_>) -> GroupName
        ensures { result ≡ name_of_total self.now (asked_by asked.entry) }
    {
        read_group(self.basis().rules, asked.group).unwrap_or_default()
    }

    // Refuses a total on the first ground that applies.
    fn judge_asked(&self, asked: Asked<'_>) -> Result<(), Ground>
        ensures { result_err result ≡ first_of (total_grounds_in self.now (asked_by asked.entry)) }
    {
        self.basis().judge_total(asked)?;
        judge_placed(
            &self.table,
            self.number_for(asked),
            kind_for(asked),
            terms_for(asked),
        )
    }

    // Enters a total to which no ground applies.
    fn enter_total(&mut self, asked: Asked<'_>) -> usize
        requires { first_of (total_grounds_in self.old (asked_by asked)) ≡ None }
        ensures answer { Ok result ≡ (totalled self.old (asked_by asked.entry)).answer }
        ensures after { self.new ≡ (totalled self.old (asked_by asked.entry)).book }
    {
        let number = self.number_for(asked);
        let name = self.name_for(asked);
        keep_total(
            &mut self.table,
            number,
            name,
            kind_for(asked),
            terms_for(asked),
        )
    }

    // A total, however it is given.
    fn take_total(&mut self, asked: Asked<'_>) -> Result<usize, Ground>
        ensures answer { numbered result ≡ (total_outcome self.old (asked_by asked.entry)).answer }
        ensures after { self.new ≡ (total_outcome self.old (asked_by asked.entry)).book }
        ensures kept { self.new.lent ≡ self.old.lent }
    {
        self.judge_asked(asked)?;
        Ok(self.enter_total(asked))
    }

    /// Takes a total by its figures, and answers the number of its group, or the ground on which it is refused; then nothing changes.
    pub fn total(&mut self, total: PlainTotal<'_>) -> Result<usize, Ground>
        ensures answer { numbered result ≡ (total_outcome self.old (asked_plainly (plain_by total.entry))).answer }
        ensures after { self.new ≡ (total_outcome self.old (asked_plainly (plain_by total.entry))).book }
        ensures kept { self.new.lent ≡ self.old.lent }
    {
        self.take_total(total.asked())
    }

    /// Takes a total as a row of 80 bytes, with the shares in a trading unit beside it, judged by the family of the day.
    pub fn total_row(&mut self, row: &[u8], unit: u64) -> Result<usize, Ground>
        ensures answer { numbered result ≡ (total_row_outcome self.old «row».now unit).answer }
        ensures after { self.new ≡ (total_row_outcome self.old «row».now unit).book }
        ensures kept { self.new.lent ≡ self.old.lent }
    {
        ensure(row.len() == TOTAL_LENGTH, Ground::LineLength)?;
        let opened = self.opened;
        self.take_total(Asked {
            of_broker: opened.is_broker(named(&TOTAL_ROW, Item::Broker, row)),
            of_date: opened.is_of_date(named(&TOTAL_ROW, Item::Date, row)),
            group: GroupFields::of(&TOTAL_ROW, row),
            kind: kind_of(named(&TOTAL_ROW, Item::Kind, row)),
            terms: row_terms(row, unit),
        })
    }
}

// As with lines, each part of a total has a value, and the grounds alone tell what is malformed.

// The kind of a total, board lots where it is malformed.
fn kind_for(asked: Asked<'_>) -> Kind
    ensures { result ≡ kind_of_total (asked_by asked.entry) }
{
    asked.kind.unwrap_or_default()
}

// The figures of a total, nothing where they are bad.
fn terms_for(asked: Asked<'_>) -> TotalTerms
    ensures { result ≡ terms_of_total (asked_by asked.entry) }
{
    asked.terms.unwrap_or_default()
}

// The number of a total's group; one that has no number becomes the last group.
fn place(table: &mut GroupTable, number: Option<usize>, group: Group) -> usize
    requires { is_full (groups_of table.old) number ≡ false }
    ensures number { result ≡ unwrap_or number (length (groups_of table.old)) }
    ensures groups { groups_of table.new ≡ cond (is_some number) (groups_of table.old) (groups_of table.old ++ group ∷ []) }
    ensures totals { totals_of table.new ≡ totals_of table.old }
{
    match number {
        Some(known) => known,
        None => {
            let next = table.count();
            table.add(group);
            next
        }
    }
}

// Keeps a total of good figures that has its place in the day's table, and answers the number of its group.
// One by one, as in `judge_placed`: a struct of the four would be made for this call alone.
fn keep_total(
    table: &mut GroupTable,
    number: Option<usize>,
    name: GroupName,
    kind: Kind,
    terms: TotalTerms,
) -> usize
    requires placed { first_of (placed_grounds (groups_of table.old) (totals_of table.old) number kind terms) ≡ None }
    requires known { IfSome number (λ n. n < length (groups_of table.old)) }
    ensures number { result ≡ unwrap_or number (length (groups_of table.old)) }
    ensures groups { groups_of table.new ≡ cond (is_some number) (groups_of table.old)
        (groups_of table.old ++ record { name = name; size = terms.size; retained = false } ∷ []) }
    ensures totals { totals_of table.new ≡ totals_of table.old
        ++ record {
          group = unwrap_or number (length (groups_of table.old));
          kind = kind;
          quantity =
              terms.quantity;
          shares = record { count = terms.quantity * shares_to_unit kind terms.size };
          amount = terms.amount;
        } ∷ [] }
{
    let group = place(
        table,
        number,
        Group {
            name,
            size: terms.size,
            retained: false,
        },
    );
    table.accept(Total {
        group,
        kind,
        quantity: terms.quantity,
        shares: terms.lot(kind).shares_in(terms.quantity),
        amount: terms.amount,
    });
    group
}
