// Texts of capital letters and digits, and texts packed into numbers.
ghost use Rattle.std.specs.Prelude.{◌≡◌, ◌^◌, ◌<◌, ◌≤◌, length};
ghost use Rattle.std.specs.List.{prefix_len};
ghost use Rattle.octets.specs.Texts.{letter_or_digit, is_code, is_security, packed, unpacked};

/// The width of a security code's field.
pub const SECURITY_WIDTH: usize = 6;

// Whether a byte is one of A–Z and 0–9.
fn is_letter_or_digit(b: u8) -> bool
    ensures { result ≡ letter_or_digit b }
{
    b.is_ascii_uppercase() || b.is_ascii_digit()
}

// How many of the first bytes are A–Z and 0–9.
fn text_length(part: &[u8]) -> usize
    ensures value { result ≡ prefix_len letter_or_digit part.now }
    ensures bound { result ≤ length part.now }
{
    part.iter().take_while(|b| is_letter_or_digit(**b)).count()
}

/// Whether a field is a code of `width` of A–Z and 0–9, as an order number (five) or a broker (four).
pub fn is_code(part: &[u8], width: usize) -> bool
    ensures { result ≡ is_code width part.now }
{
    part.len() == width && part.iter().all(|b| is_letter_or_digit(*b))
}

/// Whether a field is a security code: one to six of A–Z and 0–9, then blanks, six bytes in all.
pub fn is_security(part: &[u8]) -> bool
    ensures { result ≡ is_security part.now }
{
    // First, so that a field of another length is not gone through.
    if part.len() != SECURITY_WIDTH {
        return false;
    }
    let n = text_length(part);
    n > 0 && part[n..].iter().all(|b| *b == b' ')
}

/// Inner: a text of up to eight bytes as a number, the first byte the lowest.
// Packed, since records and entries keep codes as plain numbers and compare them so.
pub fn pack(part: &[u8]) -> u64
    requires { length part.now ≤ 8 }
    ensures value { result ≡ packed part.now }
    ensures bound { result < 256 ^ length part.now }
{
    let mut bytes = [0; 8];
    bytes[..part.len()].copy_from_slice(part);
    u64::from_le_bytes(bytes)
}

/// Writes the lowest bytes of a packed text over a field, the lowest first.
pub fn put_packed(field: &mut [u8], n: u64)
    ensures { field.new ≡ unpacked (length field.old) n }
{
    // A loop, since a field may be wider than the eight bytes that `to_le_bytes` gives.
    let mut rest = n;
    for b in field {
        // A remainder below 256 fits a byte.
        *b = (rest % 256) as u8;
        rest /= 256;
    }
}
