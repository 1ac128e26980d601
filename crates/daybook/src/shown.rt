// Ledgers whose memory is shown.
use blocks::Blocks;
use indexed::Indexed;
use ledger::{Ledger, Table};

/// A ledger whose memory is shown, where it is bytes.
pub trait Shown: Ledger + Drop {
    /// All the bytes of a ledger in blocks, those past the last block too; nothing for a table.
    fn image(&self) -> Option<&[u8]>;
}

impl<'a> Shown for Table<'a> {
    fn image(&self) -> Option<&[u8]> {
        None
    }
}

impl<L: Shown> Shown for Indexed<L> {
    fn image(&self) -> Option<&[u8]> {
        self.ledger().image()
    }
}

impl<'a> Shown for Blocks<'a> {
    fn image(&self) -> Option<&[u8]> {
        Some(self.bytes())
    }
}
