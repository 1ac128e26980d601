// What lines ask for: filings, deletions and retentions.
ghost use Rattle.std.specs.Prelude.{◌≡◌, ℕ, ◌-◌, ◌≤◌, length, cond, Some, None, IfOk};
ghost use Rattle.std.specs.Result.{result_err};
ghost use Rattle.octets.specs.Splice.{spliced};
ghost use Rattle.layout.specs.Layouts.{record_of};
ghost use Rattle.families.specs.Parts.{heading_by, filing_by, retention_by};
ghost use Rattle.forms.specs.Replies.{repeat_says};
ghost use Rattle.forms.specs.Said.{said_by};
ghost use Rattle.groups.specs.Limits.{most_groups};
ghost use Rattle.judge.specs.Grounds.{first_of};
ghost use Rattle.judge.specs.declared.grounds.Ground.TheVariants.{Code, DayFigures};
ghost use Rattle.lines.specs.Taking.{flagged};
ghost use Rattle.book.specs.Book.{numbered, CameTo};
ghost use Rattle.book.specs.Lines.{target_in, name_grounds, filed_by, filed_grounds, accepted_as, completes, filing_grounds, entered, filing_done, deletion_grounds, struck, deletion_done, taking_grounds, retention_grounds_in, retained_in, line_said, said_outcome, line_outcome};

use crate::day::Day;
use families::{Family, Filed, FilingLine, Form, LineHeading, RetentionLine};
use forms::{NotTold, Repeat, Told, put_form, tell};
use judge::{Ground, Target, Wanted, ensure};
use ledger::Ledger;
use lines::{
    Accepted, Entering, Standing, answered_count, enter, is_any_taken, judge_order, judge_room,
    put_retained, survey_for, take_groups, taken_by,
};

// Whether a filing leaves nothing of its group open.
fn is_completed(standing: Standing, wanted: Wanted) -> bool
    ensures { result ≡ completes standing wanted }
{
    u128::from(standing.open_shares.count) == wanted.shares()
        && standing.open_amount == wanted.amount
}

impl<F: Family, L: Ledger> Day<F, L> {
    // The next five ask of the family alone. Each takes the day as well, since its promise is about the day, and names a field, so that
    // no parameter goes unused.

    // The length of a line of the family. It and the next are two, since the day's records have a word for each length.
    fn line_length(&self) -> usize
        ensures { result ≡ self.now.records.line_length }
    {
        let _ = &self.family;
        F::length(Form::Line)
    }

    // The length of a reply.
    fn reply_length(&self) -> usize
        ensures { result ≡ self.now.records.reply_length }
    {
        let _ = &self.family;
        F::length(Form::Reply)
    }

    // What a line tells.
    fn told<'a>(&self, line: &'a [u8]) -> Result<Told<'a>, NotTold>
        ensures { said_by result ≡ line_said self.now line.now }
    {
        let _ = &self.family;
        tell::<F>(line)
    }

    // Writes the reply that repeats a line with a code, and leaves every other byte. The code is the record's: 0, or a ground's number.
    fn put_repeat(&self, replies: &mut [u8], line: &[u8], code: u8)
        requires { self.now.records.reply_length ≤ length replies.old }
        ensures { replies.new ≡ spliced replies.old 0 (record_of (repeat_says line.now code) self.now.records.reply) }
    {
        let _ = &self.family;
        let reply = Repeat { line, code };
        put_form::<F, Repeat<'_>>(replies, Form::Reply, 0, &reply);
    }

    // What a filing says.
    fn filed(&self, filing: FilingLine<'_>) -> Filed
        ensures { result ≡ filed_by self.now (filing_by filing.entry) }
    {
        let _ = &self.family;
        F::filed(F::read(filing))
    }

    // What a filing or a deletion names, or the first of the grounds on that which applies.
    fn judge_names(&self, heading: LineHeading<'_>, clock: u64) -> Result<Target, Ground>
        ensures judged { result_err result ≡ first_of (name_grounds self.now (heading_by heading.entry) clock) }
        ensures target { IfOk result (λ t. target_in self.now (heading_by heading.entry) ≡ Some t) }
    {
        self.basis().judge_names(heading, clock)
    }

    // What a filing is entered by, or the first of the grounds on what it files that applies. The rows are gone through once.
    fn judge_filed(&self, target: Target, filed: Filed, space: usize) -> Result<Accepted, Ground>
        ensures judged { result_err result ≡ first_of (filed_grounds self.now filed space target) }
        ensures accepted { IfOk result (λ a. a ≡ accepted_as self.now target filed) }
    {
        let rules = self.basis().rules;
        judge_order(&self.ledger, filed.common.order)?;
        let wanted = target.judge_terms(rules, filed)?;
        let order_type = filed.order_type.unwrap_or(0);
        let survey = survey_for(&self.table, &self.ledger, target, order_type);
        let standing = survey.standing;
        judge_room(
            &self.ledger,
            standing,
            wanted,
            self.next,
            space,
            self.reply_length(),
        )?;
        Ok(Accepted {
            entering: Entering::of(rules, target, filed),
            wanted,
            survey,
            next: self.next,
            completes: is_completed(standing, wanted),
        })
    }

    // Enters a filing to which no ground applies.
    fn enter_filing(
        &mut self,
        line: &[u8],
        target: Target,
        filed: Filed,
        accepted: Accepted,
        replies: &mut [u8],
    ) -> usize
        requires accepted { accepted ≡ accepted_as self.old target filed }
        requires judged { first_of (filed_grounds self.old filed (length replies.old) target) ≡ None }
        ensures answer { Ok result ≡ (entered self.old line.now filed target).answer }
        ensures after { self.new ≡ (entered self.old line.now filed target).book }
        ensures memory { replies.new ≡ spliced replies.old 0 (entered self.old line.now filed target).replies }
    {
        let n = enter::<F, L>(&mut self.ledger, replies, line, accepted);
        // Bounded by `bound` of `enter`; a `try_from` would want a case that never comes.
        self.next += n as u32;
        n
    }

    // A filing: its pieces become rows, and each gets a reply; or it is refused, and nothing changes.
    fn file(
        &mut self,
        line: &[u8],
        filing: FilingLine<'_>,
        clock: u64,
        replies: &mut [u8],
    ) -> Result<usize, Ground>
        ensures judged { result_err result ≡ first_of (filing_grounds self.old (filing_by filing.entry) clock (length replies.old)) }
        ensures came { CameTo result (filing_done self.old line.now (filing_by filing.entry)) self.old self.new replies.old replies.new }
    {
        let target = self.judge_names(filing.heading, clock)?;
        let filed = self.filed(filing);
        let accepted = self.judge_filed(target, filed, replies.len())?;
        Ok(self.enter_filing(line, target, filed, accepted, replies))
    }

    // Takes out every row of a group and kind, and answers how many went.
    fn strike(&mut self, target: Target) -> usize
        ensures answer { result ≡ length self.old.rows - length self.new.rows }
        ensures after { self.new ≡ struck self.old target }
    {
        self.ledger
            .remove(target.place.number, u8::from(target.kind))
    }

    // A deletion: takes out every row of its group and kind, and repeats its line; or it is refused, and nothing changes.
    fn delete(
        &mut self,
        line: &[u8],
        deletion: LineHeading<'_>,
        clock: u64,
        replies: &mut [u8],
    ) -> Result<usize, Ground>
        requires { self.old.records.reply_length ≤ length replies.old }
        ensures judged { result_err result ≡ first_of (deletion_grounds self.old (heading_by deletion.entry) clock) }
        ensures came { CameTo result (deletion_done self.old line.now (heading_by deletion.entry))
            self.old self.new replies.old replies.new }
    {
        let target = self.judge_names(deletion, clock)?;
        ensure(self.strike(target) != 0, Ground::NoRow)?;
        self.put_repeat(replies, line, 0);
        Ok(1)
    }

    // Refuses a retention on the first of the grounds on the groups that are flagged. The flags are a slice, as in what is asked of them.
    fn judge_taking(&self, taken: &[bool], space: usize) -> Result<(), Ground>
        requires { length taken.now ≡ most_groups }
        ensures { result_err result ≡ first_of (taking_grounds self.now (flagged taken.now) space) }
    {
        ensure(is_any_taken(taken), Ground::NothingUnfinished)?;
        // Lengths are widened by `as`, since a `usize` has no `From` into `u128`.
        let wanted = answered_count(&self.table, taken) as u128 * self.reply_length() as u128;
        ensure(wanted <= space as u128, Ground::Replies)
    }

    // A retention: takes out the rows of the account's unfinished groups, and retains these; or it is refused, and nothing changes.
    fn retain(
        &mut self,
        retention: RetentionLine<'_>,
        clock: u64,
        replies: &mut [u8],
    ) -> Result<usize, Ground>
        ensures judged { result_err result ≡ first_of
            (retention_grounds_in self.old (retention_by retention.entry) clock
            (length replies.old)) }
        ensures came { CameTo result (retained_in self.old (retention_by retention.entry)) self.old self.new replies.old replies.new }
    {
        let account = self.basis().judge_retention(retention, clock)?;
        let taken = taken_by(&self.table, &self.ledger, account);
        self.judge_taking(&taken, replies.len())?;
        let n = answered_count(&self.table, &taken);
        put_retained::<F>(
            replies,
            &self.table,
            &taken,
            self.opened.broker,
            self.opened.date,
        );
        take_groups(&mut self.table, &mut self.ledger, &taken);
        Ok(n)
    }

    // The ground on which a line is refused that tells nothing.
    fn untold(&self) -> Ground
        ensures { result ≡ cond self.now.opened.good Code DayFigures }
    {
        if self.opened.good {
            Ground::Code
        } else {
            Ground::DayFigures
        }
    }

    // Line, clock and buffer are the public call's own; what is done with the line asks for some of them, so they make no struct.
    // A line of the right length, where there is room for a reply; one that is refused changes nothing, and has its reply yet to come.
    fn take_line(&mut self, line: &[u8], clock: u64, replies: &mut [u8]) -> Result<usize, Ground>
        requires { self.old.records.reply_length ≤ length replies.old }
        ensures answer { numbered result ≡ (said_outcome self.old line.now
            (line_said self.old line.now) clock (length replies.old)).answer }
        ensures came { CameTo result (said_outcome self.old line.now (line_said self.old line.now)
            clock (length replies.old)) self.old self.new replies.old replies.new }
    {
        match self.told(line) {
            Ok(Told::Filing(filing)) => self.file(line, filing, clock, replies),
            Ok(Told::Deletion(deletion)) => self.delete(line, deletion, clock, replies),
            Ok(Told::Retention(retention)) => self.retain(retention, clock, replies),
            Err(_) => Err(self.untold()),
        }
    }

    /// Takes a line of the family at a clock (HHMMSS), and answers the number of its replies, or the ground on which it is refused.
    ///
    /// An accepted filing has a reply for each piece, a deletion one, a retention one for each total of the groups that it takes;
    /// a refused line has one, but on grounds 1 and 2 none. They stand one behind another from the front of `replies`, and every
    /// other byte is left. A refused line changes nothing else.
    pub fn line(&mut self, line: &[u8], clock: u64, replies: &mut [u8]) -> Result<usize, Ground>
        ensures answer { numbered result ≡ (line_outcome self.old line.now clock (length replies.old)).answer }
        ensures after { self.new ≡ (line_outcome self.old line.now clock (length replies.old)).book }
        ensures kept { self.new.lent ≡ self.old.lent }
        ensures memory { replies.new ≡ spliced replies.old 0 (line_outcome self.old line.now clock (length replies.old)).replies }
    {
        ensure(line.len() == self.line_length(), Ground::LineLength)?;
        ensure(replies.len() >= self.reply_length(), Ground::ReplyRoom)?;
        let answer = self.take_line(line, clock, replies);
        if let Err(ground) = answer {
            self.put_repeat(replies, line, u8::from(ground));
        }
        answer
    }
}
