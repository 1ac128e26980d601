// A ledger in blocks, over bytes that the caller lends.
ghost use Rattle.std.specs.Prelude.{◌*◌, ◌/◌, ◌≡◌, ◌≤◌, min, length};
ghost use Rattle.blocks.specs.Image.{Holds, rows_in};

mod calls;

use crate::sizes::{BLOCK_BYTES, MOST_BLOCKS};

/// A ledger in the whole blocks of some bytes, at most 1,142 of them, seven entries to a block. Between calls the blocks
/// are the image of the entries, and the bytes past the blocks are as they were. The memory is lent, so how much of it is used
/// stands beside it.
// The number of blocks is stored, and not worked out at each call, since the ghost fields and `room` speak of it.
#[derive(Drop)]
pub struct Blocks<'a> {
    bytes: &'a mut [u8],
    blocks: usize,
    len: usize,
    ghost few: { blocks ≤ 1142 },
    ghost room: { 512 * blocks ≤ length bytes.now },
    ghost fits: { len ≤ 7 * blocks },
    ghost held: { Holds blocks (rows_in len bytes.now) bytes.now },
}

/// The whole blocks in so many bytes, at most 1,142.
pub fn blocks_in(len: usize) -> usize
    ensures { result ≡ min 1142 (len / 512) }
{
    (len / BLOCK_BYTES).min(MOST_BLOCKS)
}
