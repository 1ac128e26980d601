// Showing a number and an amount, each as a whole text: programs pad it to a column, which a `Display` that writes in
// parts would not do.
ghost use Rattle.std.specs.Prelude.{◌≡◌, ◌/◌, ◌%◌, ◌<◌, ◌++◌, IfOk, string_bytes, IsAscii, OnOk};
ghost use Rattle.yuan.specs.Show.{comma_follows, with_comma, parted, grouped, yuan_text};

use lots::Cents;
use std::alloc::{AllocError, Global};

// Whether a comma stands behind a digit that `after` digits follow.
fn comma_follows(after: usize) -> bool
    ensures { result ≡ comma_follows after }
{
    after > 0 && after % 3 == 0
}

// Adds a digit that `after` digits follow, and the comma behind it where three times some follow.
fn put_digit(text: &mut String, digit: u8, after: usize) -> Result<(), AllocError>
    requires { digit < 128 }
    ensures { OnOk result (string_bytes text.new ≡ string_bytes text.old ++ with_comma digit after) }
{
    text.push(char::from(digit))?;
    if comma_follows(after) {
        text.push(',')?;
    }
    Ok(())
}

// The digits with a comma before each three from the right.
fn part_in_threes(heap: Global, digits: &[u8]) -> Result<String, AllocError>
    requires { IsAscii digits.now }
    ensures { IfOk result (λ s. string_bytes s ≡ parted digits.now) }
{
    let mut text = String::new(heap);
    for (i, digit) in digits.iter().enumerate() {
        put_digit(&mut text, *digit, digits.len() - 1 - i)?;
    }
    Ok(text)
}

/// A number in digits, with a comma before each three from the right, as 1,234,567.
pub fn show_number(heap: Global, n: u64) -> Result<String, AllocError>
    ensures { IfOk result (λ s. string_bytes s ≡ grouped n) }
{
    let plain = n.to_string(heap)?;
    part_in_threes(heap, plain.as_bytes())
}

// The two digits of the cents in an amount. By hand: what `{:02}` writes is told as a text that is padded, and not as two digits.
fn cent_digits(cents: u64) -> (u64, u64)
    ensures { result ≡ (cents % 100 / 10, cents % 10) }
{
    (cents % 100 / 10, cents % 10)
}

/// An amount or a price in yuan with two decimals, as 100,010.00.
pub fn show_cents(heap: Global, cents: Cents) -> Result<String, AllocError>
    ensures { IfOk result (λ s. string_bytes s ≡ yuan_text cents.count) }
{
    let yuan = show_number(heap, cents.count / 100)?;
    let (tens, ones) = cent_digits(cents.count);
    format!(in heap; "{yuan}.{tens}{ones}")
}
