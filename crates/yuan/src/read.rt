// Reading a number and an amount.
ghost use Rattle.std.specs.Prelude.{◌≡◌, ℕ, ◌*◌, ◌%◌, ◌^◌, ◌<◌, ◌≤◌, ◌&&◌, length, IfSome, Some, ◌==◌};
ghost use Rattle.yuan.specs.Read.{with_character, digits, number, point_in, decimals, behind, yuan};
ghost use Rattle.yuan.specs.Show.{grouped, yuan_text};

/// The most characters that a number is read from, commas among them.
pub const LONGEST_NUMBER: usize = 19;

/// The most whole yuan that the amount field of a line holds.
pub const MOST_YUAN: u64 = 999_999_999_999;

// The number after one more character: a digit, or a comma where one is due.
fn read_character(n: u64, character: u8, comma_due: bool) -> Option<u64>
    requires { n < 10 ^ 18 }
    ensures { result ≡ with_character comma_due n character }
{
    match character {
        b',' if comma_due => Some(n),
        b'0'..=b'9' if !comma_due => Some(n * 10 + u64::from(character - b'0')),
        _ => None,
    }
}

// Whether a comma is due before the last `after` characters of a word that commas part in threes.
fn comma_before(after: usize, parted: bool) -> bool
    ensures { result ≡ (parted && after % 4 == 3) }
{
    parted && after % 4 == 3
}

// Digits, or digits that commas part in threes from the right: one reader for both ways, each in one pass.
// Digits are counted from the left, as they are read, and commas from the right.
// `octets` reads plain digits too, by a definition of its own; here one definition serves both ways.
fn read_digits(word: &[u8], parted: bool) -> Option<u64>
    requires { length word.now ≤ 19 }
    ensures value { result ≡ digits parted 0 word.now }
    ensures bound { IfSome result (λ n. n < 10 ^ length word.now) }
{
    let mut n = 0;
    for (i, character) in word.iter().enumerate() {
        let comma_due = comma_before(word.len() - 1 - i, parted);
        n = read_character(n, *character, comma_due)?;
    }
    Some(n)
}

/// Reads a whole number: 1 to 19 characters, digits alone or digits that commas part in threes from the right.
/// What `show_number` shows reads back.
pub fn read_number(word: &[u8]) -> Option<u64>
    ensures value { result ≡ number word.now }
    ensures back { (n : ℕ) → n < 10 ^ 15 → word.now ≡ grouped n → result ≡ Some n }
{
    if word.is_empty() || word.len() > LONGEST_NUMBER {
        return None;
    }
    if word[0] != b',' {
        if let Some(n) = read_digits(word, true) {
            return Some(n);
        }
    }
    read_digits(word, false)
}

// The place of the first point, or the word's length where there is none: what stands before it is the whole part either way.
fn point_in(word: &[u8]) -> usize
    ensures value { result ≡ point_in word.now }
    ensures bound { result ≤ length word.now }
{
    word.iter().position(|c| *c == b'.').unwrap_or(word.len())
}

// One to four digits behind a point, in ten-thousandths.
fn read_decimals(part: &[u8]) -> Option<u64>
    ensures value { result ≡ decimals part.now }
    ensures bound { IfSome result (λ n. n < 10000) }
{
    let scale = match part.len() {
        1 => 1000,
        2 => 100,
        3 => 10,
        4 => 1,
        _ => return None,
    };
    let n = read_digits(part, false)?;
    Some(n * scale)
}

// What stands behind the place of the point, in ten-thousandths; nothing there is 0.
fn read_behind(word: &[u8], place: usize) -> Option<u64>
    requires { place ≤ length word.now }
    ensures value { result ≡ behind word.now place }
    ensures bound { IfSome result (λ n. n < 10000) }
{
    if place == word.len() {
        return Some(0);
    }
    read_decimals(&word[place + 1..])
}

/// Reads an amount of yuan with up to four decimals, as 100,010.00, in ten-thousandths of a yuan.
/// It has at most twelve digits before the point, as the field of a line has. What `show_cents` shows reads back.
pub fn read_yuan(word: &[u8]) -> Option<u64>
    ensures value { result ≡ yuan word.now }
    ensures back { (n : ℕ) → n < 10 ^ 14 → word.now ≡ yuan_text n → result ≡ Some (n * 100) }
{
    let point = point_in(word);
    let whole = read_number(&word[..point])?;
    if whole > MOST_YUAN {
        return None;
    }
    let part = read_behind(word, point)?;
    Some(whole * 10000 + part)
}
