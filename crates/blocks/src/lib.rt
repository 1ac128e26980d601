//! A ledger in blocks of 512 bytes, each with a number and a checksum.
#![tactic(auto)]

mod block;
mod codec;
mod filled;
mod filling;
mod sizes;

pub use block::{checksum, entry_at};
pub use codec::{entry_bytes, entry_of};
pub use filled::{Blocks, blocks_in};
pub use sizes::{BLOCK_BYTES, CHECKSUM_AT, ENTRIES_PER_BLOCK, ENTRY_BYTES, MOST_BLOCKS, PLACES_AT};
