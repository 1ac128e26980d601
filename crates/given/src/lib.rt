//! Records for tests and examples.
#![tactic(auto)]

ghost use Rattle.std.specs.Prelude.{◌≡◌, ◌++◌, take, replicate, slice_set};

/// A record: what stands at its front, as far as it fits, and then blanks.
pub fn blank_behind<const N: usize>(front: &[u8]) -> [u8; N]
    ensures { result ≡ take N (front.now ++ replicate N 32) }
{
    let mut record = [b' '; N];
    let n = front.len().min(N);
    record[..n].copy_from_slice(&front[..n]);
    record
}

/// The bytes with another byte at a place, if they have that place, in a copy.
pub fn with_byte<const N: usize>(bytes: &[u8; N], at: usize, byte: u8) -> [u8; N]
    ensures { result ≡ slice_set bytes.now at byte }
{
    let mut changed = *bytes;
    // By a test, and not by `get_mut`, of which the library promises less.
    if at < N {
        changed[at] = byte;
    }
    changed
}
