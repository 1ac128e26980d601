// The sizes of a block and of its parts.

/// The bytes of a block.
pub const BLOCK_BYTES: usize = 512;

/// The places for entries in a block.
pub const ENTRIES_PER_BLOCK: usize = 7;

/// The bytes of an entry.
pub const ENTRY_BYTES: usize = 72;

/// The most blocks that a ledger uses.
pub const MOST_BLOCKS: usize = 1142;

/// Where the places begin in a block, after the count and the number.
pub const PLACES_AT: usize = 4;

// The bytes of the places.
pub(crate) const PLACES_BYTES: usize = ENTRIES_PER_BLOCK * ENTRY_BYTES;

/// Where the checksum stands in a block, after the places.
pub const CHECKSUM_AT: usize = PLACES_AT + PLACES_BYTES;
