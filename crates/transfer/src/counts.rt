// What a transfer counts, and when it has counted enough.
ghost use Rattle.std.specs.Prelude.{◌≡◌, false};
ghost use Rattle.transfer.specs.Transfers.{nought, spent, counted};

/// The most refused lines with which a transfer takes further lines.
pub const MOST_REFUSED: u32 = 50;

/// The most lines that a transfer hands on.
pub const MOST_HANDED: u32 = 8000;

/// What a transfer counts.
#[derive(Clone, Copy, PartialEq, Eq, Debug, Default)]
pub struct Counts {
    /// Lines handed on.
    pub handed: u32,
    /// Of these, lines that were refused.
    pub refused: u32,
}

impl Counts {
    /// Whether a transfer that has counted so takes no further line.
    pub fn is_spent(self) -> bool
        ensures { result ≡ spent self }
    {
        self.refused > MOST_REFUSED || self.handed >= MOST_HANDED
    }

    // Counts a line, and a refused one as refused too.
    pub(crate) fn count(&mut self, refused: bool)
        requires { spent self.old ≡ false }
        ensures { self.new ≡ counted self.old refused }
    {
        self.handed += 1;
        self.refused += u32::from(refused);
    }

    // Sets both counts to 0.
    pub(crate) fn clear(&mut self)
        ensures { self.new ≡ nought }
    {
        *self = Counts::default();
    }
}
