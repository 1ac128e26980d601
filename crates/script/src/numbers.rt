// Numbers in words.
ghost use Rattle.std.specs.Prelude.{◌≡◌, ◌+◌, ◌-◌, ◌*◌, ◌^◌, ◌<◌, ◌≤◌, IfSome};
ghost use Rattle.octets.specs.Digits.{is_digit};
ghost use Rattle.script.specs.Words.{fitting, number_in};

/// Whether a byte is a decimal digit. It is the library's test, under the word that the contracts of the fields use too.
pub fn is_digit(b: u8) -> bool
    ensures { result ≡ is_digit b }
{
    b.is_ascii_digit()
}

// A number with one more digit, or nothing where it is no longer below 2 ^ 64.
fn with_digit(n: u64, digit: u8) -> Option<u64>
    requires { 48 ≤ digit }
    ensures value { result ≡ fitting (n * 10 + (digit - 48)) }
    ensures bound { IfSome result (λ m. m < 2 ^ 64) }
{
    n.checked_mul(10)?.checked_add(u64::from(digit - b'0'))
}

/// The number that a word writes in decimal digits, or nothing where it is no number below 2 ^ 64.
pub fn read_number(word: &[u8]) -> Option<u64>
    ensures { result ≡ number_in word.now }
{
    if word.is_empty() {
        return None;
    }
    // `str::parse` would take a plus sign before the digits too. `try_fold` is no plainer than this loop with its two early ends.
    let mut n: u64 = 0;
    for b in word {
        if !is_digit(*b) {
            return None;
        }
        n = with_digit(n, *b)?;
    }
    Some(n)
}
