// What can differ from what a case expects, in words.
use crate::cases::Answer;
use book::Verdict;
use lines::State;
use std::fmt;

/// What a call did, where something else was expected.
#[derive(Clone, Copy)]
pub enum Difference {
    Answer {
        given: Answer,
        wanted: Answer,
    },
    /// A record of its buffer, and the first byte that differs; both count from 1.
    Record {
        number: usize,
        byte: usize,
    },
    /// The group has no total.
    NoTotal,
    /// What is open.
    Open {
        shares: u64,
        amount: u64,
        state: State,
    },
    Verdict(Verdict),
}

fn write_answer<W: fmt::Write>(f: &mut fmt::Formatter<W>, answer: Answer) -> fmt::Result {
    match answer {
        Ok(n) => write!(f, "accepted {n}"),
        Err(ground) => write!(f, "refused {ground}"),
    }
}

impl fmt::Display for Difference {
    fn fmt<W: fmt::Write>(&self, f: &mut fmt::Formatter<W>) -> fmt::Result {
        match self {
            Difference::Answer { given, wanted } => {
                write!(f, "the answer is ")?;
                write_answer(f, *given)?;
                write!(f, ", not ")?;
                write_answer(f, *wanted)
            }
            Difference::Record { number, byte } => {
                write!(f, "record {number} differs from byte {byte} on")
            }
            Difference::NoTotal => write!(f, "the group has no total"),
            Difference::Open {
                shares,
                amount,
                state,
            } => write!(f, "{shares} shares and {amount} cents are open: {state:?}"),
            Difference::Verdict(verdict) => write!(f, "the verdict is {verdict:?}"),
        }
    }
}
