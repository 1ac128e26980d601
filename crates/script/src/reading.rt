// The call that a line makes.
ghost use Rattle.std.specs.Prelude.{◌≡◌};
ghost use Rattle.script.specs.Calls.{bytes_at, number_at, small_at, group_at, family_in, ledger_in, open_in, total_in, cai_in, line_in, figures_in, row_in, inspect_in, split_in, transfer_call, plain_question, call_named, call_in};

use crate::bytes::ByteWord;
use crate::calls::{Call, FamilyName, GroupWords, LedgerName, Opening, TotalCall};
use crate::numbers::read_number;
use crate::words::{word_at, word_count};

// Word k of a line is asked for by its number, as the list of calls tells them: a list of words would have to hold any number of
// them, to tell a line of too many.
fn bytes_at(line: &[u8], k: usize) -> Option<ByteWord<'_>>
    ensures { result ≡ bytes_at line.now k }
{
    ByteWord::read(word_at(line, k)?)
}

fn number_at(line: &[u8], k: usize) -> Option<u64>
    ensures { result ≡ number_at line.now k }
{
    read_number(word_at(line, k)?)
}

// A number below 256.
fn small_at(line: &[u8], k: usize) -> Option<u8>
    ensures { result ≡ small_at line.now k }
{
    u8::try_from(number_at(line, k)?).ok()
}

// The name of a group, from words 1 to 3.
fn group_at(line: &[u8]) -> Option<GroupWords<'_>>
    ensures { result ≡ group_at line.now }
{
    Some(GroupWords {
        account: bytes_at(line, 1)?,
        security: bytes_at(line, 2)?,
        side: bytes_at(line, 3)?,
    })
}

// The words of a script; those of `preview` are the words of a command line.
fn read_family(word: &[u8]) -> Option<FamilyName>
    ensures { result ≡ family_in word.now }
{
    match word {
        b"plan" => Some(FamilyName::Plan),
        b"omnibus" => Some(FamilyName::Omnibus),
        _ => None,
    }
}

fn read_ledger(word: &[u8]) -> Option<LedgerName>
    ensures { result ≡ ledger_in word.now }
{
    match word {
        b"table" => Some(LedgerName::Table),
        b"blocks" => Some(LedgerName::Blocks),
        _ => None,
    }
}

fn read_open(line: &[u8]) -> Option<Call<'_>>
    ensures { result ≡ open_in line.now }
{
    let family = read_family(word_at(line, 1)?)?;
    let broker = bytes_at(line, 2)?;
    let date = number_at(line, 3)?;
    let first = number_at(line, 4)?;
    let ledger = read_ledger(word_at(line, 5)?)?;
    let size = number_at(line, 6)?;
    Some(Call::Open(Opening {
        family,
        broker,
        date,
        first,
        ledger,
        size,
    }))
}

fn read_total(line: &[u8]) -> Option<Call<'_>>
    ensures { result ≡ total_in line.now }
{
    Some(Call::Total(TotalCall {
        group: group_at(line)?,
        kind: small_at(line, 4)?,
        unit: number_at(line, 5)?,
        quantity: number_at(line, 6)?,
        amount: number_at(line, 7)?,
    }))
}

fn read_cai(line: &[u8]) -> Option<Call<'_>>
    ensures { result ≡ cai_in line.now }
{
    Some(Call::Cai {
        unit: number_at(line, 1)?,
        row: bytes_at(line, 2)?,
    })
}

fn read_line(line: &[u8]) -> Option<Call<'_>>
    ensures { result ≡ line_in line.now }
{
    Some(Call::Line {
        clock: number_at(line, 1)?,
        room: number_at(line, 2)?,
        bytes: bytes_at(line, 3)?,
    })
}

fn read_figures(line: &[u8]) -> Option<Call<'_>>
    ensures { result ≡ figures_in line.now }
{
    Some(Call::Figures(group_at(line)?))
}

fn read_row(line: &[u8]) -> Option<Call<'_>>
    ensures { result ≡ row_in line.now }
{
    Some(Call::Row {
        index: number_at(line, 1)?,
        room: number_at(line, 2)?,
    })
}

fn read_inspect(line: &[u8]) -> Option<Call<'_>>
    ensures { result ≡ inspect_in line.now }
{
    Some(Call::Inspect {
        bytes: bytes_at(line, 1)?,
    })
}

fn read_split(line: &[u8]) -> Option<Call<'_>>
    ensures { result ≡ split_in line.now }
{
    Some(Call::Split {
        quantity: number_at(line, 1)?,
        shares: number_at(line, 2)?,
        amount: number_at(line, 3)?,
    })
}

// What begins or ends a transfer.
fn transfer_call<'a>(name: &[u8]) -> Option<Call<'a>>
    ensures { result ≡ transfer_call name.now }
{
    match name {
        b"begin" => Some(Call::Begin),
        b"end" => Some(Call::End),
        _ => None,
    }
}

// What is asked of a day by a name alone.
fn plain_question<'a>(name: &[u8]) -> Option<Call<'a>>
    ensures { result ≡ plain_question name.now }
{
    match name {
        b"verdict" => Some(Call::Verdict),
        b"rows" => Some(Call::Rows),
        b"image" => Some(Call::Image),
        _ => None,
    }
}

// The call of this name and so many words that a line makes. The name is looked at under its number of words, so that a name
// with too few or too many words makes no call. A `match` on both at once leaves one last case that the check does not close.
fn call_named<'a>(line: &'a [u8], name: &[u8], count: usize) -> Option<Call<'a>>
    ensures { result ≡ call_named line.now name.now count }
{
    match count {
        1 => transfer_call(name).or(plain_question(name)),
        2 => match name {
            b"inspect" => read_inspect(line),
            _ => None,
        },
        3 => match name {
            b"cai" => read_cai(line),
            b"row" => read_row(line),
            _ => None,
        },
        4 => match name {
            b"line" => read_line(line),
            b"figures" => read_figures(line),
            b"split" => read_split(line),
            _ => None,
        },
        7 => match name {
            b"open" => read_open(line),
            _ => None,
        },
        8 => match name {
            b"total" => read_total(line),
            _ => None,
        },
        _ => None,
    }
}

/// The call that a line of a script makes, or nothing where it makes none.
pub fn read_call(line: &[u8]) -> Option<Call<'_>>
    ensures { result ≡ call_in line.now }
{
    call_named(line, word_at(line, 0).unwrap_or(b""), word_count(line))
}
