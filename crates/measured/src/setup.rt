// What a host gives and gets, in numbers of 64 bits.

/// What a day is opened on, and how often it is asked at its end.
#[repr(C)]
#[derive(Clone, Copy)]
pub struct Setup {
    /// 0 for a plan, any other number for an omnibus account.
    pub family: u64,
    /// 0 for a table, 1 for blocks, 2 and 3 for these with an index; any further number as the remainder that 4 leaves of it.
    pub ledger: u64,
    /// Places of a table, or bytes for blocks.
    pub size: u64,
    pub date: u64,
    /// The first trade number.
    pub first: u64,
    /// Shares in a trading unit, for every total.
    pub unit: u64,
    /// The clock of every line.
    pub clock: u64,
    /// How often the figures of the first total's group are asked for.
    pub figures: u64,
    /// How often the verdict is asked for.
    pub verdicts: u64,
}

/// What a day is measured with: the bytes are the host's own.
#[derive(Clone, Copy)]
pub(crate) struct Given<'a> {
    pub(crate) setup: Setup,
    pub(crate) broker: &'a [u8],
    pub(crate) totals: &'a [u8],
    pub(crate) earlier: &'a [u8],
    pub(crate) lines: &'a [u8],
}

/// What came of a day; all 0 where there was no memory for its ledger.
#[repr(C)]
#[derive(Clone, Copy, PartialEq, Eq, Debug, Default)]
pub struct Came {
    /// 1 for a day that was opened.
    pub opened: u64,
    /// Accepted totals.
    pub totals: u64,
    /// Accepted lines, of those before the lines that are measured.
    pub earlier: u64,
    /// Accepted lines, of those that are measured.
    pub lines: u64,
    /// Rows at the end.
    pub rows: u64,
    /// The sum of the open shares that were told.
    pub figures: u64,
    /// The sum of the verdicts, as numbers.
    pub verdicts: u64,
}
