// Judging what a filing asks for: to whom, how many, for how much.
ghost use Rattle.std.specs.Prelude.{◌≡◌, ◌^◌, ◌<◌, length, IfOk};
ghost use Rattle.std.specs.Result.{result_err};
ghost use Rattle.lots.specs.Pieces.{pieces_in, pending};
ghost use Rattle.lots.specs.declared.units.Cents.{Cents};
ghost use Rattle.judge.specs.Wanted.{shares_wanted, pieces_wanted, count_of};
ghost use Rattle.judge.specs.Grounds.{first_of};
ghost use Rattle.judge.specs.Terms.{good_new, quantity_asked, amount_asked, wanted_for, wanted_of, terms_grounds};

use crate::grounds::{Ground, ensure};
use crate::heading::Target;
use families::{Filed, Rules, may_hold};
use lots::{
    Cents, Kind, LARGEST_PIECE, Lot, Pieces, Run, amount_fits, price_fits, quantity_fits, split,
};

/// What a filing asks for, once its terms are judged.
#[derive(Clone, Copy)]
pub struct Wanted {
    pub lot: Lot,
    /// Whether its runs are cut into pieces.
    pub cut: bool,
    pub quantity: u64,
    pub amount: Cents,
    /// What it is split into.
    pub runs: (Run, Run),
}

impl Wanted {
    /// How many shares it asks for.
    pub fn shares(self) -> u128
        ensures { result ≡ shares_wanted self }
    {
        u128::from(self.quantity) * u128::from(self.lot.shares_each().count)
    }

    /// The pieces that it comes back as.
    pub fn pieces(self) -> Pieces
        ensures { pending result ≡ pieces_wanted self }
    {
        let (first, second) = self.runs;
        Pieces::of(first, second, self.cut)
    }

    /// How many pieces it comes back as.
    // Worked out and not counted: of a quantity of any size the pieces would be gone through one by one.
    pub fn piece_count(self) -> u64
        ensures { result ≡ count_of self }
    {
        let (first, second) = self.runs;
        run_count(self.cut, first.0) + run_count(self.cut, second.0)
    }
}

// How many pieces a run of a quantity has, at whatever price.
fn run_count(cut: bool, quantity: u64) -> u64
    ensures value { (price : Cents) → result ≡ length (pieces_in cut (quantity, price)) }
    ensures bound { result < 2 ^ 60 }
{
    if cut {
        quantity.div_ceil(LARGEST_PIECE)
    } else {
        quantity.min(1)
    }
}

impl Target {
    // Whether the new account and the new broker may be allocated to.
    fn takes_new(self, rules: Rules, filed: Filed) -> bool
        ensures { result ≡ good_new rules self filed }
    {
        let class = filed.common.investor.map(|investor| investor.class);
        may_hold(rules, self.stem, class) && filed.new_broker.is_some()
    }

    // The quantity, where it is within its range.
    fn quantity(self, rules: Rules, filed: Filed) -> Option<u64>
        ensures { result ≡ quantity_asked rules self filed }
    {
        let quantity = filed.common.quantity?;
        if !quantity_fits(self.lot(), rules.most_units, quantity) {
            return None;
        }
        Some(quantity)
    }

    // The amount, where it is in whole cents and within its range.
    fn amount(self, filed: Filed) -> Option<Cents>
        ensures { result ≡ amount_asked self filed }
    {
        let amount = Cents::from_ten_thousandths(filed.common.amount?)?;
        if !amount_fits(self.lot(), amount) {
            return None;
        }
        Some(amount)
    }

    // What a filing of a quantity and an amount asks for.
    fn wanted(self, rules: Rules, quantity: u64, amount: Cents) -> Wanted
        ensures { result ≡ wanted_for rules self quantity amount }
    {
        let lot = self.lot();
        Wanted {
            lot,
            cut: rules.cuts && self.kind == Kind::BoardLot,
            quantity,
            amount,
            runs: split(quantity, lot.shares_each(), amount),
        }
    }

    /// What a filing asks for, or the first of the grounds on new account and new broker, order type, quantity, amount and prices
    /// that applies.
    pub fn judge_terms(self, rules: Rules, filed: Filed) -> Result<Wanted, Ground>
        ensures judged { result_err result ≡ first_of (terms_grounds rules self filed) }
        ensures wanted { IfOk result (λ w. w ≡ wanted_of rules self filed) }
    {
        ensure(self.takes_new(rules, filed), Ground::NewAccount)?;
        ensure(filed.order_type.is_some(), Ground::OrderType)?;
        let quantity = self.quantity(rules, filed).ok_or(Ground::Quantity)?;
        let amount = self.amount(filed).ok_or(Ground::Amount)?;
        let wanted = self.wanted(rules, quantity, amount);
        ensure(
            price_fits(wanted.runs.0) && price_fits(wanted.runs.1),
            Ground::Price,
        )?;
        Ok(wanted)
    }
}
