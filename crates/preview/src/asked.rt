// What is asked of a filing: its family, its kind and its figures.
ghost use Rattle.std.specs.Prelude.{◌≡◌};
ghost use Rattle.lots.specs.declared.units.Kind.TheVariants.{BoardLot};
ghost use Rattle.preview.specs.Families.{rules_of, most_units, cuts};
ghost use Rattle.preview.specs.Judge.{in_cents};

use families::{Family as _, Omnibus, Plan, Rules};
use lots::{Cents, Kind, Lot, TradingUnits, UnitSize};

/// The family of the account that files: a savings plan or an omnibus account.
// A script's words have an enum and a reader of their own: they stand apart from what is judged here.
#[derive(Clone, Copy, PartialEq, Eq, Debug)]
pub enum Family {
    Plan,
    Omnibus,
}

impl Family {
    /// What the family allows.
    pub fn rules(self) -> Rules
        ensures { result ≡ rules_of self }
    {
        match self {
            Family::Plan => Plan::rules(),
            Family::Omnibus => Omnibus::rules(),
        }
    }

    /// The most trading units in a filing of board lots.
    pub fn most_units(self) -> TradingUnits
        ensures value { result ≡ record { count = most_units self } }
        ensures as_filed { result ≡ (rules_of self).most_units }
    {
        self.rules().most_units
    }

    /// Whether runs of this kind come back cut into pieces.
    pub fn cuts(self, kind: Kind) -> bool
        ensures value { result ≡ cuts self kind }
        ensures as_filed { kind ≡ BoardLot → result ≡ (rules_of self).cuts }
    {
        kind == Kind::BoardLot && self.rules().cuts
    }
}

/// The terms of a filing, with its amount in a measure `A`.
#[derive(Clone, Copy)]
pub struct FilingTerms<A> {
    pub family: Family,
    // Kind and size side by side, as the words of a filing name them.
    pub kind: Kind,
    pub size: UnitSize,
    /// Trading units for board lots, shares for odd lots.
    pub quantity: u64,
    pub amount: A,
}

/// A filing as it is asked about: not judged yet, and its amount in ten-thousandths of a yuan, as its field has it.
pub type Question = FilingTerms<u64>;

/// What is filed, in the measures of the book.
pub type Terms = FilingTerms<Cents>;

impl<A: Copy> FilingTerms<A> {
    // In which kind of lots, and in which trading unit.
    pub(crate) fn lot(self) -> Lot
        ensures { result ≡ record { kind = self.kind; size = self.size } }
    {
        Lot {
            kind: self.kind,
            size: self.size,
        }
    }
}

impl Question {
    // The same terms with their amount in cents. Field by field, since the type of the amount changes.
    pub(crate) fn in_cents(self, amount: Cents) -> Terms
        ensures { result ≡ in_cents self amount }
    {
        FilingTerms {
            family: self.family,
            kind: self.kind,
            size: self.size,
            quantity: self.quantity,
            amount,
        }
    }
}
