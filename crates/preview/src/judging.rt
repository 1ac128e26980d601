// Judging a filing before there is a day, from words alone: the crates that judge and file lines do it for a line in a day.
ghost use Rattle.std.specs.Prelude.{◌≡◌, true};
ghost use Rattle.preview.specs.Judge.{good_quantity, judged, judgement, quantity_refusal};
ghost use Rattle.preview.specs.Outcome.{outcome, filing_of};

use crate::accepted::Filing;
use crate::asked::{Family, Question, Terms};
use crate::reading::read_question;
use crate::refusals::Refusal;
use lots::{Cents, Kind, amount_fits, price_fits, quantity_fits, split};

// The range of a quantity that was passed.
fn quantity_refusal(family: Family, kind: Kind) -> Refusal
    ensures { result ≡ quantity_refusal family kind }
{
    match (family, kind) {
        (_, Kind::OddLot) => Refusal::OddLotQuantity,
        (Family::Plan, _) => Refusal::PlanQuantity,
        (Family::Omnibus, _) => Refusal::OmnibusQuantity,
    }
}

// Judges a filing of a good quantity by its amount and the prices that it would come back at.
fn judge_amount(terms: Terms) -> Result<Filing, Refusal>
    requires { good_quantity terms ≡ true }
    ensures { outcome result ≡ judged terms }
{
    if !amount_fits(terms.lot(), terms.amount) {
        return Err(Refusal::Amount);
    }
    // Split here and in `tabulate`: the two lines are as long as a method with its clause would be.
    let unit = terms.lot().shares_each();
    let (first, second) = split(terms.quantity, unit, terms.amount);
    if !price_fits(first) || !price_fits(second) {
        return Err(Refusal::Price);
    }
    Ok(Filing { terms })
}

/// Judges a filing by its quantity, its amount and the prices that it would come back at, in this order.
pub fn judge(question: Question) -> Result<Filing, Refusal>
    ensures { outcome result ≡ judgement question }
{
    let most = question.family.most_units();
    if !quantity_fits(question.lot(), most, question.quantity) {
        return Err(quantity_refusal(question.family, question.kind));
    }
    let amount = Cents::from_ten_thousandths(question.amount).ok_or(Refusal::PartOfCent)?;
    judge_amount(question.in_cents(amount))
}

/// Reads a filing from its five words, and judges it: the first word that tells nothing is refused, then the figures
/// are judged.
pub fn read_filing(
    family: &[u8],
    kind: &[u8],
    unit: &[u8],
    quantity: &[u8],
    amount: &[u8],
) -> Result<Filing, Refusal>
    ensures { outcome result ≡ filing_of family.now kind.now unit.now quantity.now amount.now }
{
    let question = read_question(family, kind, unit, quantity, amount)?;
    judge(question)
}
