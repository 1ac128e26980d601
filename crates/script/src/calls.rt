// The calls of a script.
ghost use Rattle.std.specs.Prelude.{◌≡◌, IfOk};
ghost use Rattle.script.specs.Groups.{group_of};

use crate::bytes::ByteWord;
use std::alloc::{AllocError, Global};

/// A family of accounts. It is not the `Family` of `preview`: a script's words stand apart from what is judged there.
#[derive(Clone, Copy, PartialEq, Eq, Debug)]
pub enum FamilyName {
    Plan,
    Omnibus,
}

/// A make of ledger.
#[derive(Clone, Copy, PartialEq, Eq, Debug)]
pub enum LedgerName {
    Table,
    Blocks,
}

/// What opens a day: its family, broker, date and first trade number, and its ledger, of so many entries or bytes.
#[derive(Drop)]
pub struct Opening<'a> {
    pub family: FamilyName,
    pub broker: ByteWord<'a>,
    pub date: u64,
    pub first: u64,
    // entries or bytes, as the ledger's name says: two words of a script, taken together where the day is opened
    pub ledger: LedgerName,
    pub size: u64,
}

/// The three words that name a group.
// Words, where `forms` has the fields of a record and the numbers in them: a script knows no records.
#[derive(Drop)]
pub struct GroupWords<'a> {
    pub account: ByteWord<'a>,
    pub security: ByteWord<'a>,
    pub side: ByteWord<'a>,
}

impl<'a> GroupWords<'a> {
    /// The bytes of the account, the security and the side, each in memory of their own.
    // A triple, taken apart at once where a day is called with its three parts: a struct for it would only name them again.
    pub fn bytes(&self, alloc: Global) -> Result<(Vec<u8>, Vec<u8>, Vec<u8>), AllocError>
        ensures { IfOk result (λ r. group_of r.0.items r.1.items r.2.items ≡ self.now) }
    {
        Ok((
            self.account.bytes(alloc)?,
            self.security.bytes(alloc)?,
            self.side.bytes(alloc)?,
        ))
    }
}

/// A total by its figures; the amount is in ten-thousandths of a yuan.
#[derive(Drop)]
pub struct TotalCall<'a> {
    pub group: GroupWords<'a>,
    /// As it is asked for; the day judges it.
    pub kind: u8,
    pub unit: u64,
    pub quantity: u64,
    pub amount: u64,
}

/// A call, with all that its line says.
#[derive(Drop)]
pub enum Call<'a> {
    /// Begins a day over a new ledger.
    Open(Opening<'a>),
    /// A total by its figures.
    Total(TotalCall<'a>),
    /// A row of totals.
    Cai {
        unit: u64,
        row: ByteWord<'a>,
    },
    /// A line, with the length of the buffer for its replies.
    Line {
        clock: u64,
        room: u64,
        bytes: ByteWord<'a>,
    },
    /// Begins a transfer.
    Begin,
    /// Ends the transfer that runs.
    End,
    /// The figures of a group.
    Figures(GroupWords<'a>),
    Verdict,
    /// An entry as a row, with the length of the buffer for it.
    Row {
        index: u64,
        room: u64,
    },
    /// All entries of the ledger.
    Rows,
    /// The bytes of the ledger.
    Image,
    Inspect {
        bytes: ByteWord<'a>,
    },
    Split {
        quantity: u64,
        shares: u64,
        amount: u64,
    },
}
