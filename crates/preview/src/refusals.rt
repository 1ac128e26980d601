// Why a filing cannot come back.
ghost use Rattle.std.specs.Prelude.{◌≡◌, Some};
ghost use Rattle.preview.specs.Judge.{ground_of};
ghost use Rattle.preview.specs.Reasons.{argument_of, argument_name, reason_of};

use std::error::Error;
use std::fmt;

/// Which part of the question is at fault, and why.
#[derive(Clone, Copy, PartialEq, Eq, Debug)]
pub enum Refusal {
    /// The family is neither plan nor omnibus.
    UnknownFamily,
    /// The kind is neither board nor odd.
    UnknownKind,
    /// The trading unit is not of 1, 10, 100 or 1,000 shares.
    UnknownUnit,
    /// The quantity is no whole number.
    QuantityWord,
    /// The amount is no number of yuan with up to four decimals.
    AmountWord,
    /// The amount is not in whole cents.
    PartOfCent,
    /// A plan files 1 to 499 trading units.
    PlanQuantity,
    /// An omnibus account files 1 to 10,000 trading units.
    OmnibusQuantity,
    /// Odd lots are 1 to 999 shares, and fewer than a trading unit.
    OddLotQuantity,
    /// The amount is nothing or, for board lots, not a multiple of as many cents as a trading unit holds shares.
    Amount,
    /// A price would be under one cent or over 99,999.99 yuan.
    Price,
}

/// One of the five words that tell a filing.
#[derive(Clone, Copy, PartialEq, Eq, Debug)]
pub enum Argument {
    Family,
    Kind,
    Unit,
    Quantity,
    Amount,
}

impl Refusal {
    /// The number of the check by which the exchange refuses such a line, where it is one of the exchange's.
    /// A number: the crate that names the grounds would bring groups and records along for three of them.
    pub fn ground(self) -> Option<u8>
        ensures { result ≡ ground_of self }
    {
        match self {
            Refusal::PlanQuantity | Refusal::OmnibusQuantity | Refusal::OddLotQuantity => Some(17),
            Refusal::PartOfCent | Refusal::Amount => Some(18),
            Refusal::Price => Some(19),
            _ => None,
        }
    }

    /// Which of the five words is at fault.
    pub fn argument(self) -> Argument
        ensures { result ≡ argument_of self }
    {
        match self {
            Refusal::UnknownFamily => Argument::Family,
            Refusal::UnknownKind => Argument::Kind,
            Refusal::UnknownUnit => Argument::Unit,
            Refusal::QuantityWord => Argument::Quantity,
            Refusal::PlanQuantity | Refusal::OmnibusQuantity | Refusal::OddLotQuantity =>
                Argument::Quantity,
            Refusal::AmountWord | Refusal::PartOfCent | Refusal::Amount | Refusal::Price =>
                Argument::Amount,
        }
    }

    /// Why it is refused, as the end of a sentence.
    pub fn reason(self) -> &'static str
        ensures { result.now ≡ reason_of self }
    {
        match self {
            Refusal::UnknownFamily => "the family is plan or omnibus",
            Refusal::UnknownKind => "the kind is board (or 0) or odd (or 2)",
            Refusal::UnknownUnit => "a trading unit has 1, 10, 100 or 1,000 shares",
            Refusal::QuantityWord => "the quantity is a whole number, as 499 or 10,000",
            Refusal::AmountWord =>
                "the amount is in yuan, with at most twelve digits before the point and four behind it, as 100,010.00",
            Refusal::PartOfCent => "the amount is in whole cents",
            Refusal::PlanQuantity => "a plan files 1 to 499 trading units",
            Refusal::OmnibusQuantity => "an omnibus account files 1 to 10,000 trading units",
            Refusal::OddLotQuantity =>
                "odd lots are 1 to 999 shares, and fewer than a trading unit",
            Refusal::Amount =>
                "the amount is at least 0.01 and, for board lots, a multiple of as many cents as a trading unit has shares",
            Refusal::Price => "the price of a share would be under 0.01 or over 99,999.99",
        }
    }
}

// Both texts are written by hand: a derived `Display` promises no text, and here it is promised.

/// Why it is refused, as the end of a sentence.
impl fmt::Display for Refusal {
    ghost output = { λ refusal. Some (reason_of refusal) };

    fn fmt<W: fmt::Write>(&self, f: &mut fmt::Formatter<W>) -> fmt::Result {
        f.write_str(self.reason())
    }
}

impl Error for Refusal {}

impl fmt::Display for Argument {
    ghost output = { λ argument. Some (argument_name argument) };

    fn fmt<W: fmt::Write>(&self, f: &mut fmt::Formatter<W>) -> fmt::Result {
        match self {
            Argument::Family => f.write_str("family"),
            Argument::Kind => f.write_str("kind"),
            Argument::Unit => f.write_str("unit"),
            Argument::Quantity => f.write_str("quantity"),
            Argument::Amount => f.write_str("amount"),
        }
    }
}
