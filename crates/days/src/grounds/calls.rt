// A call, and what comes before it on its day.

/// A call of a day. Of a line the bytes up to its code are given; the rest, up to its length, is blank. Totals are of account 8477771,
/// side B.
#[derive(Clone, Copy)]
pub(crate) enum Call {
    Line {
        front: &'static [u8; 68],
        length: usize,
        clock: u64,
        space: usize,
    },
    OmnibusLine {
        front: &'static [u8; 65],
        length: usize,
        clock: u64,
        space: usize,
    },
    Total {
        security: &'static [u8; 6],
        kind: u8,
        unit: u64,
        quantity: u64,
        amount: u64,
    },
    Row {
        index: usize,
        space: usize,
    },
}

/// What is not as on other days, which are of 2 January 2024, give trade numbers from 1 and have 32 places.
#[derive(Clone, Copy)]
pub(crate) enum Before {
    Nothing,
    OpenedOn(u64),
    NumbersFrom(u64),
    Places(usize),
    /// So many groups have a total.
    Groups(u8),
    /// A retention has taken the groups of account 9955551.
    Retained,
    /// A transfer hands the line on that has had so many refused lines.
    Refused(u32),
    /// A transfer hands the line on that has had so many lines, none of them refused.
    HandedOn(u32),
}

impl Before {
    pub(crate) fn date(self) -> u64 {
        match self {
            Before::OpenedOn(date) => date,
            _ => 20_240_102,
        }
    }

    pub(crate) fn first(self) -> u64 {
        match self {
            Before::NumbersFrom(first) => first,
            _ => 1,
        }
    }

    pub(crate) fn places(self) -> usize {
        match self {
            Before::Places(places) => places,
            _ => 32,
        }
    }
}

/// One side of a case.
#[derive(Clone, Copy)]
pub(crate) struct Side {
    pub(crate) what: &'static str,
    pub(crate) before: Before,
    pub(crate) call: Call,
}

#[derive(Clone, Copy)]
pub(crate) struct Case {
    pub(crate) ground: u8,
    pub(crate) refused: Side,
    pub(crate) passes: Side,
}
