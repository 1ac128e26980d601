// What an inspection tells.

/// The test that a block fails, and where.
#[derive(Clone, Copy, PartialEq, Eq, Debug)]
pub enum Fault {
    /// It says that it holds more than seven entries: so many.
    Count(u64),
    /// Its number is not its place: its number.
    Number(u64),
    /// Its checksum does not hold: the sum of its bytes, and the checksum that it has.
    Checksum { sum: u32, stored: u32 },
    /// A byte past its entries is not zero: the place of the first, in the block.
    Unused(usize),
    /// A filler of one of its entries is not zero: the first such entry, from 0.
    Filler(usize),
    /// It has entries, and a block before it is not full: how many entries the blocks before it hold.
    Gap(u64),
}

/// How many leading blocks are sound, and how many entries they hold.
// `repr(C)`: an archive for programs in C hands it out as it is.
#[repr(C)]
#[derive(Clone, Copy, PartialEq, Eq, Debug, Default)]
pub struct Found {
    pub blocks: u64,
    pub entries: u64,
}
