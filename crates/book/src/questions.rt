// Questions, which change nothing.
ghost use Rattle.std.specs.Prelude.{◌≡◌, length};
ghost use Rattle.families.specs.Parts.{group_by};
ghost use Rattle.book.specs.Book.{numbered};
ghost use Rattle.book.specs.Questions.{figures_answer, unfinished_at, verdict_number, verdict_answer, row_answer, row_told, row_buffer};

use crate::day::Day;
use families::{Family, Form, GroupFields};
use forms::{Row, put_form};
use judge::Ground;
use ledger::Ledger;
use lines::{State, standing_of};
use lots::{Cents, Shares};

/// How far a day has come.
#[derive(Clone, Copy, PartialEq, Eq, Debug)]
pub enum Verdict {
    /// No group has a total.
    NoGroups = 0,
    /// A group is unfinished.
    Unfinished = 1,
    /// Every group is complete or retained.
    Finished = 2,
}

impl From<Verdict> for u8 {
    ghost from_gives = { λ verdict number. number ≡ verdict_number verdict };

    fn from(verdict: Verdict) -> u8 {
        verdict as u8
    }
}

impl<F: Family, L: Ledger> Day<F, L> {
    /// Open shares, open amount and state of a group, or nothing where it has no total.
    // A triple, as the rules tell the answer: whoever asks takes it apart at once.
    pub fn figures(&self, group: GroupFields<'_>) -> Option<(Shares, Cents, State)>
        ensures { result ≡ figures_answer self.now (group_by group.entry) }
    {
        let place = self.basis().place_of(group)?;
        let standing = standing_of(&self.table, &self.ledger, place);
        Some((standing.open_shares, standing.open_amount, standing.state()))
    }

    // Whether the group of a number is unfinished.
    fn is_unfinished(&self, number: usize) -> bool
        ensures { result ≡ unfinished_at self.now number }
    {
        self.table.place_at(number).is_some_and(|place| standing_of(
            &self.table,
            &self.ledger,
            place,
        ).is_unfinished())
    }

    /// How far the day has come; as a number 0 for a day without groups, 2 when every group is complete or retained, else 1.
    pub fn verdict(&self) -> Verdict
        ensures { verdict_number result ≡ verdict_answer self.now }
    {
        let n = self.table.count();
        if n == 0 {
            return Verdict::NoGroups;
        }
        // A loop over the groups' numbers: of `any` over a range the library tells less than the proof wants.
        for number in 0..n {
            if self.is_unfinished(number) {
                return Verdict::Unfinished;
            }
        }
        Verdict::Finished
    }

    /// Writes entry `i` of the ledger as a row of the family to the front of a buffer, and leaves every other byte; or answers
    /// the ground on which it is refused, and leaves all of it.
    pub fn row(&self, i: usize, buffer: &mut [u8]) -> Result<(), Ground>
        ensures answer { numbered result ≡ row_told (row_answer self.now i (length buffer.old)) }
        ensures memory { buffer.new ≡ row_buffer (row_answer self.now i (length buffer.old)) buffer.old }
    {
        let read = self.ledger.read(i);
        // Refused by hand: with `ensure(..)?` and `ok_or(..)?` the two clauses want four more answers.
        if buffer.len() < F::length(Form::Row) {
            return Err(Ground::ReplyRoom);
        }
        let Some(entry) = read else {
            return Err(Ground::RowIndex);
        };
        let heading = self.table.heading(
            usize::from(entry.group),
            self.opened.broker,
            self.opened.date,
        );
        let row = Row { heading, entry };
        put_form::<F, Row>(buffer, Form::Row, 0, &row);
        Ok(())
    }
}
