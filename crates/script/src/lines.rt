// The lines of a script.
ghost use Rattle.std.specs.Prelude.{◌≡◌, ◌==◌, ◌∷◌, [], MatchOption, position};
ghost use Rattle.std.specs.Iterator.{item_count};
ghost use Rattle.script.specs.Lines.{newline, lines_of, NextLine};

use std::marker::Model;

// The place of the first newline, if there is one.
fn newline_in(text: &[u8]) -> Option<usize>
    ensures { result ≡ position (λ b. b == newline) text.now }
{
    text.iter().position(|b| *b == b'\n')
}

// The first line of a text, without its newline, and the text behind it; or nothing where there is no line.
fn first_line(text: &[u8]) -> Option<(&[u8], &[u8])>
    ensures { MatchOption result (lines_of text.now ≡ []) (λ r. lines_of text.now ≡ r.0.now ∷ lines_of r.1.now) }
{
    if text.is_empty() {
        return None;
    }
    match newline_in(text) {
        Some(end) => Some((&text[..end], &text[end + 1..])),
        None => Some((text, &text[text.len()..])),
    }
}

/// The lines of a script that are left, and how many came before them.
// The count stands with the rest, since a script is handed on from day to day, and clauses name both.
#[derive(Drop)]
pub struct Script<'a> {
    rest: &'a [u8],
    number: u64,
}

impl<'a> Model for Script<'a> {
    ghost use Rattle.script.specs.Lines.{Left, lines_of};

    ghost Value = { Left };

    ghost view = { λ s. record { lines = lines_of s.rest.now; number = s.number } };
}

impl<'a> Script<'a> {
    /// The lines of a text. A last line without a newline counts too.
    pub fn of(text: &'a [u8]) -> Script<'a>
        ensures { result ≡ record { lines = lines_of text.now; number = 0 } }
    {
        Script {
            rest: text,
            number: 0,
        }
    }

    /// The number of the line that came last, from 1.
    pub fn number(&self) -> u64
        ensures { result ≡ self.now.number }
    {
        self.number
    }
}

impl<'a> Iterator for Script<'a> {
    type Item = &'a [u8];

    ghost next_gives = { NextLine };

    ghost remaining = { item_count (λ s. s.lines) };

    /// The next line, or nothing behind the last.
    fn next(&mut self) -> Option<&'a [u8]> {
        let (line, rest) = first_line(self.rest)?;
        self.rest = rest;
        self.number = self.number.saturating_add(1);
        Some(line)
    }
}
