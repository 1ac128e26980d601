// Accounts: the four stems, and what an investor's account is.
ghost use Rattle.std.specs.Prelude.{◌≡◌, IfSome, Some};
ghost use Rattle.families.specs.Accounts.{stem_of, account_of, investor_of, own_of, holds, same_stem};

use crate::family::Rules;
use octets::read_digits;

/// The digits of an account.
pub const ACCOUNT_WIDTH: usize = 7;

/// The first six digits of an account that is allocated from.
#[derive(Clone, Copy, Debug, PartialEq, Eq)]
pub enum Stem {
    /// 847777
    PlanDomestic,
    /// 947777
    PlanForeign,
    /// 885555
    OmnibusDomestic,
    /// 995555
    OmnibusForeign,
}

/// What an investor's account is.
#[derive(Clone, Copy, Debug, PartialEq, Eq)]
pub enum Class {
    Domestic,
    Foreign,
    /// An account that is allocated from, and never to.
    House,
}

/// An investor's account.
#[derive(Clone, Copy, Debug, PartialEq, Eq)]
pub struct Investor {
    pub number: u32,
    pub class: Class,
}

/// An account that a family allocates from.
#[derive(Clone, Copy, Debug, PartialEq, Eq)]
pub struct OwnAccount {
    pub number: u32,
    pub stem: Stem,
}

/// The stem that an account of seven bytes begins with, if it is one of the four.
pub fn stem_of(account: &[u8]) -> Option<Stem>
    ensures { result ≡ stem_of account.now }
{
    if account.len() != ACCOUNT_WIDTH {
        return None;
    }
    match &account[..6] {
        b"847777" => Some(Stem::PlanDomestic),
        b"947777" => Some(Stem::PlanForeign),
        b"885555" => Some(Stem::OmnibusDomestic),
        b"995555" => Some(Stem::OmnibusForeign),
        _ => None,
    }
}

/// The number of an account of seven digits.
pub fn read_account(account: &[u8]) -> Option<u32>
    ensures { result ≡ account_of account.now }
{
    if account.len() != ACCOUNT_WIDTH {
        return None;
    }
    let number = read_digits(account)?;
    // Seven digits fit 32 bits, so the cast loses nothing.
    Some(number as u32)
}

/// An investor's account by its number and its class, or nothing where it is not seven digits: one of the house's where it begins with
/// any of the four stems, else foreign where it begins with 94, 95 or 99, else domestic.
pub fn read_investor(account: &[u8]) -> Option<Investor>
    ensures { result ≡ investor_of account.now }
{
    let number = read_account(account)?;
    if stem_of(account).is_some() {
        let class = Class::House;
        return Some(Investor { number, class });
    }
    let class = match &account[..2] {
        b"94" | b"95" | b"99" => Class::Foreign,
        _ => Class::Domestic,
    };
    Some(Investor { number, class })
}

/// An account of seven digits that a family allocates from, by its number and its stem.
pub fn read_own(rules: Rules, account: &[u8]) -> Option<OwnAccount>
    ensures value { result ≡ own_of rules account.now }
    ensures number { IfSome result (λ own. account_of account.now ≡ Some own.number) }
{
    let number = read_account(account)?;
    let stem = stem_of(account)?;
    if stem != rules.domestic && stem != rules.foreign {
        return None;
    }
    Some(OwnAccount { number, stem })
}

/// Whether an account of a class may be allocated to under a stem: a foreign one under the family's foreign stem, a domestic one
/// under the other.
pub fn may_hold(rules: Rules, stem: Stem, class: Option<Class>) -> bool
    ensures { result ≡ holds (same_stem stem rules.foreign) class }
{
    match class {
        Some(Class::Domestic) => stem != rules.foreign,
        Some(Class::Foreign) => stem == rules.foreign,
        Some(Class::House) | None => false,
    }
}
