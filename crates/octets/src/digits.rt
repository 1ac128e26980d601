// Numbers in fields of digits.
ghost use Rattle.std.specs.Prelude.{◌≡◌, ℕ, ◌/◌, ◌%◌, ◌^◌, ◌<◌, ◌≤◌, length, IfSome, Some};
ghost use Rattle.octets.specs.Digits.{digits, number_after, number_in};

/// The most digits that a number is read from: every number of so many fits 64 bits.
pub const WIDEST_NUMBER: usize = 19;

// The number that the digits of a short field write.
fn short_number(part: &[u8]) -> Option<u64>
    requires { length part.now ≤ 19 }
    ensures value { result ≡ number_after 0 part.now }
    ensures bound { IfSome result (λ n. n < 10 ^ length part.now) }
{
    // A loop: a closure of `try_fold` would not know how many digits came before, and so not that the sum fits.
    let mut n: u64 = 0;
    for b in part {
        if !b.is_ascii_digit() {
            return None;
        }
        n = n * 10 + u64::from(*b - b'0');
    }
    Some(n)
}

/// The number that a field of up to 19 digits writes, or nothing where the field is wider or a byte of it is no digit.
/// What `put_digits` writes reads back.
pub fn read_digits(part: &[u8]) -> Option<u64>
    ensures value { result ≡ number_in part.now }
    ensures bound { IfSome result (λ n. n < 10 ^ length part.now) }
    ensures back { (w n : ℕ) → w ≤ 19 → n < 10 ^ w → part.now ≡ digits w n → result ≡ Some n }
{
    if part.len() > WIDEST_NUMBER {
        return None;
    }
    short_number(part)
}

// A number without its last digit, and that digit. A number of 64 bits is divided as one: that takes a few instructions, and a wider one
// over a hundred.
fn last_digit(n: u128) -> (u128, u8)
    ensures { result ≡ (n / 10, n % 10) }
{
    match u64::try_from(n) {
        Ok(short) => (u128::from(short / 10), (short % 10) as u8),
        Err(_) => (n / 10, (n % 10) as u8),
    }
}

/// Writes the last digits of `n` over a field, the highest first.
// An index counts from the end: of what is written through `iter_mut().rev()` the library promises nothing to the field.
pub fn put_digits(field: &mut [u8], n: u128)
    ensures { field.new ≡ digits (length field.old) n }
{
    let mut rest = n;
    for i in (0..field.len()).rev() {
        let (others, digit) = last_digit(rest);
        field[i] = b'0' + digit;
        rest = others;
    }
}
