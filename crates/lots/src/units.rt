// The measures of the book: shares, trading units and cents, each a type of its own.
ghost use Rattle.std.specs.Prelude.{◌≡◌, ◌*◌, IfErr, Some};
ghost use Rattle.std.specs.Result.{result_ok};
ghost use Rattle.lots.specs.Units.{shares_in, unit_size, kind_number, kind_of, shares_to_unit, whole_cents, ten_thousandths, unknown_unit_text, unknown_kind_text};

use std::error::Error;
use std::fmt;

/// A number of shares.
#[derive(Clone, Copy, PartialEq, Eq, PartialOrd, Ord, Debug, Default)]
pub struct Shares {
    pub count: u64,
}

/// A number of trading units. It becomes shares only through the size of the unit.
#[derive(Clone, Copy, PartialEq, Eq, Debug)]
pub struct TradingUnits {
    pub count: u32,
}

/// An amount or a price in cents, hundredths of a yuan.
#[derive(Clone, Copy, PartialEq, Eq, PartialOrd, Ord, Debug, Default)]
pub struct Cents {
    pub count: u64,
}

/// How many shares a trading unit holds: 1, 10, 100 or 1,000.
#[derive(Clone, Copy, PartialEq, Eq, Debug, Default)]
pub enum UnitSize {
    #[default]
    One,
    Ten,
    Hundred,
    Thousand,
}

/// What a quantity counts: trading units (kind 0) or shares (kind 2).
#[derive(Clone, Copy, PartialEq, Eq, Debug, Default)]
pub enum Kind {
    #[default]
    BoardLot,
    OddLot,
}

/// What is traded of a security: in which kind of lots, and in which trading unit.
#[derive(Clone, Copy, PartialEq, Eq, Debug, Default)]
pub struct Lot {
    pub kind: Kind,
    pub size: UnitSize,
}

/// A number of shares that no trading unit holds.
#[derive(Clone, Copy, Debug)]
pub struct UnknownUnit(pub u64);

/// A number in the exchange's records that no kind has.
#[derive(Clone, Copy, Debug)]
pub struct UnknownKind(pub u8);

impl TradingUnits {
    /// The shares in these units, at `size` shares to a unit.
    pub fn shares(self, size: UnitSize) -> Shares
        ensures { result ≡ record { count = self.count * shares_in size } }
    {
        Shares {
            count: u64::from(self.count) * size.shares().count,
        }
    }
}

/// How many ten-thousandths of a yuan, the last place of an amount's field, make a cent.
pub const TEN_THOUSANDTHS_PER_CENT: u64 = 100;

impl Cents {
    // Named, and no `TryFrom`: a plain number does not tell in which measure it is.
    /// The cents in an amount of ten-thousandths of a yuan, or nothing where that is no whole number of cents.
    pub fn from_ten_thousandths(amount: u64) -> Option<Self>
        ensures { result ≡ whole_cents amount }
    {
        if amount % TEN_THOUSANDTHS_PER_CENT != 0 {
            return None;
        }
        Some(Cents {
            count: amount / TEN_THOUSANDTHS_PER_CENT,
        })
    }

    /// The amount in ten-thousandths of a yuan, as a field has it.
    pub fn ten_thousandths(self) -> u128
        ensures { result ≡ ten_thousandths self }
    {
        u128::from(self.count) * u128::from(TEN_THOUSANDTHS_PER_CENT)
    }
}

// The shares of a size and the numbers of the kinds are matched both ways: a cast would tell only the number of a case.
impl UnitSize {
    pub fn shares(self) -> Shares
        ensures { result ≡ record { count = shares_in self } }
    {
        let count = match self {
            UnitSize::One => 1,
            UnitSize::Ten => 10,
            UnitSize::Hundred => 100,
            UnitSize::Thousand => 1000,
        };
        Shares { count }
    }
}

impl TryFrom<u64> for UnitSize {
    type Error = UnknownUnit;

    ghost try_from_gives = { λ shares r. (result_ok r ≡ unit_size shares) × IfErr r (λ e. e.0 ≡ shares) };

    /// The size of so many shares to a unit.
    fn try_from(shares: u64) -> Result<Self, UnknownUnit> {
        match shares {
            1 => Ok(UnitSize::One),
            10 => Ok(UnitSize::Ten),
            100 => Ok(UnitSize::Hundred),
            1000 => Ok(UnitSize::Thousand),
            _ => Err(UnknownUnit(shares)),
        }
    }
}

impl TryFrom<u8> for Kind {
    type Error = UnknownKind;

    ghost try_from_gives = { λ number r. (result_ok r ≡ kind_of number) × IfErr r (λ e. e.0 ≡ number) };

    /// The kind of a number in the exchange's records.
    fn try_from(number: u8) -> Result<Self, UnknownKind> {
        match number {
            0 => Ok(Kind::BoardLot),
            2 => Ok(Kind::OddLot),
            _ => Err(UnknownKind(number)),
        }
    }
}

impl From<Kind> for u8 {
    ghost from_gives = { λ kind number. number ≡ kind_number kind };

    /// The number of the kind in the exchange's records.
    fn from(kind: Kind) -> u8 {
        match kind {
            Kind::BoardLot => 0,
            Kind::OddLot => 2,
        }
    }
}

impl Lot {
    /// The shares in one of what a quantity counts: a trading unit's for board lots, 1 for odd lots.
    pub fn shares_each(self) -> Shares
        ensures { result ≡ record { count = shares_to_unit self.kind self.size } }
    {
        match self.kind {
            Kind::BoardLot => self.size.shares(),
            Kind::OddLot => Shares { count: 1 },
        }
    }

    /// The shares in a quantity: trading units for board lots, shares for odd lots.
    pub fn shares_in(self, quantity: u32) -> Shares
        ensures { result ≡ record { count = quantity * shares_to_unit self.kind self.size } }
    {
        match self.kind {
            Kind::BoardLot => TradingUnits { count: quantity }.shares(self.size),
            Kind::OddLot => Shares {
                count: u64::from(quantity),
            },
        }
    }
}

// The two texts are written by hand: this crate, which an archive for C is made of, stands on no other.
impl fmt::Display for UnknownUnit {
    ghost output = { λ e. Some (unknown_unit_text e) };

    fn fmt<W: fmt::Write>(&self, f: &mut fmt::Formatter<W>) -> fmt::Result {
        write!(f, "no trading unit holds {} shares", self.0)
    }
}

impl Error for UnknownUnit {}

impl fmt::Display for UnknownKind {
    ghost output = { λ e. Some (unknown_kind_text e) };

    fn fmt<W: fmt::Write>(&self, f: &mut fmt::Formatter<W>) -> fmt::Result {
        write!(f, "no kind has number {}", self.0)
    }
}

impl Error for UnknownKind {}
