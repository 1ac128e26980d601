// Reading the words of the command line.
ghost use Rattle.std.specs.Prelude.{◌≡◌};
ghost use Rattle.preview.specs.Words.{family_of, kind_of, unit_of, question_of};

use crate::asked::{Family, Question};
use crate::refusals::Refusal;
use lots::{Kind, UnitSize};
use yuan::{read_number, read_yuan};

// Readers and no `TryFrom`: kind and unit are types of another crate, and the words are the command line's own.
fn read_family(word: &[u8]) -> Option<Family>
    ensures { result ≡ family_of word.now }
{
    match word {
        b"plan" => Some(Family::Plan),
        b"omnibus" => Some(Family::Omnibus),
        _ => None,
    }
}

fn read_kind(word: &[u8]) -> Option<Kind>
    ensures { result ≡ kind_of word.now }
{
    match word {
        b"board" | b"0" => Some(Kind::BoardLot),
        b"odd" | b"2" => Some(Kind::OddLot),
        _ => None,
    }
}

fn read_unit(word: &[u8]) -> Option<UnitSize>
    ensures { result ≡ unit_of word.now }
{
    let shares = read_number(word)?;
    UnitSize::try_from(shares).ok()
}

/// Reads a filing from five words: the family (plan or omnibus), the kind (board or 0, odd or 2), the shares in a
/// trading unit, the quantity, and the amount in yuan with up to four decimals.
// Five parameters: this function and `read_filing` alone take them, and who calls has five words one by one.
pub fn read_question(
    family: &[u8],
    kind: &[u8],
    unit: &[u8],
    quantity: &[u8],
    amount: &[u8],
) -> Result<Question, Refusal>
    ensures { result ≡ question_of family.now kind.now unit.now quantity.now amount.now }
{
    Ok(Question {
        family: read_family(family).ok_or(Refusal::UnknownFamily)?,
        kind: read_kind(kind).ok_or(Refusal::UnknownKind)?,
        size: read_unit(unit).ok_or(Refusal::UnknownUnit)?,
        quantity: read_number(quantity).ok_or(Refusal::QuantityWord)?,
        amount: read_yuan(amount).ok_or(Refusal::AmountWord)?,
    })
}
