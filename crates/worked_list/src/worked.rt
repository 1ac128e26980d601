// What a worked figure is: a question and what must come of it.
use lines::State;
use lots::{Cents, Kind, Piece, Run, Shares, UnitSize};

/// The family of an account.
// A value, where `families` has a trait: one table holds filings of both.
#[derive(Clone, Copy)]
pub enum Family {
    Plan,
    Omnibus,
}

/// What a filing asks for.
#[derive(Clone, Copy)]
pub struct Filing {
    pub family: Family,
    pub kind: Kind,
    /// Shares in a trading unit.
    pub size: UnitSize,
    pub quantity: u64,
    pub amount: Cents,
}

/// A call of a day, on its one group.
#[derive(Clone, Copy)]
pub enum Call {
    /// A total, with the amount in ten-thousandths of a yuan.
    Total {
        kind: u8,
        unit: u64,
        quantity: u64,
        amount: u64,
    },
    /// A line at a time of day, HHMMSS, with a buffer of 600 bytes for its replies.
    Line {
        bytes: &'static [u8; 200],
        clock: u64,
    },
}

/// A call that is accepted, and what is seen of it.
#[derive(Clone, Copy)]
pub struct Step {
    pub call: Call,
    /// The number of a total's group, or how many replies a line gets.
    pub answer: u64,
    pub replies: &'static [&'static [u8; 200]],
    /// Open shares, open amount and state of the group afterwards.
    pub open_figures: (Shares, Cents, State),
    /// How many rows the ledger has afterwards.
    pub rows: u64,
}

/// A day of a plan with one group.
#[derive(Clone, Copy)]
pub struct Day {
    pub broker: &'static [u8; 4],
    /// YYYYMMDD.
    pub date: u64,
    /// The first trade number.
    pub first: u64,
    /// How many rows the ledger has room for.
    pub places: u64,
    pub account: &'static [u8; 7],
    pub security: &'static [u8; 6],
    pub side: &'static [u8; 1],
    pub steps: &'static [Step],
}

/// What is put in, and what must come of it.
#[derive(Clone, Copy)]
pub enum Worked {
    /// A quantity of units of so many shares for an amount, and the runs that it is split into.
    Split {
        quantity: u64,
        shares: u64,
        amount: Cents,
        runs: (Run, Run),
    },
    /// A filing by its terms alone, and the pieces that it comes back as.
    Accepted {
        filing: Filing,
        pieces: &'static [Piece],
    },
    /// A filing by its terms alone, and the number of the ground for which it is refused.
    Refused {
        filing: Filing,
        ground: u64,
    },
    /// A day, and what is seen call by call.
    OnDay(Day),
}
