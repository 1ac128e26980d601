// What a case is made of: calls of a day, each with what it should answer. Records stand without the blanks at their end.
use book::Verdict;
use lines::State;

/// What a call should answer: a total the number of its group, a line the number of its replies, and a row 0, since it answers nothing;
/// or the number of the ground on which it is refused.
pub type Answer = Result<usize, u8>;

/// The bytes that name a group.
#[derive(Clone, Copy)]
pub struct Name {
    pub account: &'static [u8; 7],
    pub security: &'static [u8; 6],
    pub side: &'static [u8; 1],
}

/// A total by its figures; the amount is in ten-thousandths of a yuan.
#[derive(Clone, Copy)]
pub struct Total {
    pub group: Name,
    pub kind: u8,
    pub unit: u64,
    pub quantity: u64,
    pub amount: u64,
    pub answer: Answer,
}

/// A row of totals, with the shares in a trading unit.
#[derive(Clone, Copy)]
pub struct TotalRow {
    pub row: &'static [u8],
    pub unit: u64,
    pub answer: Answer,
}

/// A line at a clock, and its replies; a refused line has one.
#[derive(Clone, Copy)]
pub struct Line {
    pub line: &'static [u8],
    pub clock: u64,
    pub answer: Answer,
    pub replies: &'static [&'static [u8]],
}

/// What is open in a group; the amount is in cents.
#[derive(Clone, Copy)]
pub struct Open {
    pub group: Name,
    pub shares: u64,
    pub amount: u64,
    pub state: State,
}

#[derive(Clone, Copy)]
pub enum Step {
    Total(Total),
    TotalRow(TotalRow),
    Line(Line),
    Open(Open),
    /// All rows of the ledger, in order.
    Rows(&'static [&'static [u8]]),
    Verdict(Verdict),
}

/// What a case shows, in words, and its calls.
#[derive(Clone, Copy)]
pub struct Case {
    pub what: &'static str,
    pub steps: &'static [Step],
}

/// A day: each of its cases goes on where the one before has left it.
#[derive(Clone, Copy)]
pub struct TradingDay {
    pub what: &'static str,
    pub broker: &'static [u8; 4],
    pub date: u64,
    /// The first trade number.
    pub first: u64,
    pub cases: &'static [Case],
}
