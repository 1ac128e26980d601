// Saving the entries of a ledger of any make as blocks.
ghost use Rattle.std.specs.Prelude.{◌≡◌, ◌*◌, min, length, take};
ghost use Rattle.blocks.specs.Image.{blocks_in, image_in};
ghost use Rattle.inspection.specs.Sound.{found, sound_entries};

use blocks::Blocks;
use ledger::Ledger;

/// Saves the entries of a ledger as blocks in some bytes, as many as fit, and answers how many.
///
/// The bytes are then the image of those entries, and past the blocks as they were. An inspection of them finds every block sound,
/// and those entries.
pub fn save<L: Ledger>(from: &L, bytes: &mut [u8]) -> usize
    ensures answer { result ≡ min (length (L.Ledger.rows from.now)) (7 * blocks_in bytes.old) }
    ensures memory { bytes.new ≡ image_in bytes.old (take result (L.Ledger.rows from.now)) }
    ensures sound { found bytes.new ≡ record { blocks = blocks_in bytes.old; entries = result } }
    ensures back { sound_entries bytes.new ≡ take result (L.Ledger.rows from.now) }
{
    let mut to = Blocks::new(bytes);
    let n = from.count().min(to.capacity());
    let entries = from.entries();
    for e in entries.take(n) {
        to.append(e);
    }
    n
}
