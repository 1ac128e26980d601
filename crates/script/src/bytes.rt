// Words that stand for bytes.
ghost use Rattle.std.specs.Prelude.{◌≡◌, ◌<◌, IfOk, IfSome};
ghost use Rattle.std.specs.List.{list_all};
ghost use Rattle.script.specs.Words.{hex_digit, is_hex, is_printable, is_byte_word, hex_bytes, plain_bytes, bytes_in};

use std::alloc::{AllocError, Global};
use std::marker::Model;

/// A word that stands for bytes: `x:` and hexadecimal digits, or plain text with `_` for a blank.
#[derive(Drop)]
pub struct ByteWord<'a> {
    word: &'a [u8],
}

impl<'a> Model for ByteWord<'a> {
    ghost use Rattle.std.specs.Prelude.{List, ℕ};

    ghost Value = { List ℕ };

    ghost use Rattle.script.specs.Words.{bytes_of};

    ghost view = { λ w. bytes_of w.word.now };
}

// The value of a hexadecimal digit, or nothing where it is none. By hand: `char::to_digit` answers a `u32`, which would want a cast and
// a bound of its own.
fn hex_digit(b: u8) -> Option<u8>
    ensures value { result ≡ hex_digit b }
    ensures bound { IfSome result (λ n. n < 16) }
{
    match b {
        b'0'..=b'9' => Some(b - b'0'),
        b'a'..=b'f' => Some(b - b'a' + 10),
        b'A'..=b'F' => Some(b - b'A' + 10),
        _ => None,
    }
}

fn is_printable(b: u8) -> bool
    ensures { result ≡ is_printable b }
{
    b.is_ascii_graphic()
}

// The two tests of all bytes stand apart: within the `match` that asks them, each case would want an answer of its own.
fn is_all_hex(part: &[u8]) -> bool
    ensures { result ≡ list_all is_hex part.now }
{
    part.iter().all(|b| hex_digit(*b).is_some())
}

fn is_all_printable(part: &[u8]) -> bool
    ensures { result ≡ list_all is_printable part.now }
{
    part.iter().all(|b| is_printable(*b))
}

fn is_byte_word(word: &[u8]) -> bool
    ensures { result ≡ is_byte_word word.now }
{
    match word {
        [b'x', b':', digits @ ..] => digits.len() % 2 == 0 && is_all_hex(digits),
        text => !text.is_empty() && is_all_printable(text),
    }
}

// The bytes that hexadecimal digits write, two digits for each.
fn hex_bytes(alloc: Global, digits: &[u8]) -> Result<Vec<u8>, AllocError>
    ensures { IfOk result (λ v. v.items ≡ hex_bytes digits.now) }
{
    let (pairs, _) = digits.as_chunks::<2>();
    // A word that was read has digits alone; 0 for any other byte asks nothing of the word in a clause.
    pairs
        .iter()
        .map(|pair| hex_digit(pair[0]).unwrap_or(0) * 16 + hex_digit(pair[1]).unwrap_or(0))
        .collect(alloc)
}

// The bytes of plain text.
fn plain_bytes(alloc: Global, text: &[u8]) -> Result<Vec<u8>, AllocError>
    ensures { IfOk result (λ v. v.items ≡ plain_bytes text.now) }
{
    text.iter()
        .map(|b| if *b == b'_' { b' ' } else { *b })
        .collect(alloc)
}

impl<'a> ByteWord<'a> {
    /// The bytes of a word, or nothing where it stands for none.
    pub(crate) fn read(word: &'a [u8]) -> Option<ByteWord<'a>>
        ensures { result ≡ bytes_in word.now }
    {
        is_byte_word(word).then_some(ByteWord { word })
    }

    /// The bytes, in memory of their own.
    pub fn bytes(&self, alloc: Global) -> Result<Vec<u8>, AllocError>
        ensures { IfOk result (λ v. v.items ≡ self.now) }
    {
        match self.word {
            [b'x', b':', digits @ ..] => hex_bytes(alloc, digits),
            text => plain_bytes(alloc, text),
        }
    }
}
