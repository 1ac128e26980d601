// What a line tells: a filing, a deletion or a retention.
ghost use Rattle.std.specs.Prelude.{◌≡◌};
ghost use Rattle.families.specs.declared.family.Form.TheVariants.{Line};
ghost use Rattle.forms.specs.Said.{said_by, said, said_in};

use families::{Family, FilingLine, Form, GroupFields, LineHeading, RetentionLine};
use layout::{Field, Item, named};
use thiserror::Error;

/// The security of a line that retains: no code of a security that can be traded.
pub(crate) const ALL_SECURITIES: [u8; 6] = *b"ZZZZZZ";

/// A line by what it asks for. Of a deletion's line only the heading counts.
#[derive(Clone, Copy)]
pub enum Told<'a> {
    Filing(FilingLine<'a>),
    Deletion(LineHeading<'a>),
    Retention(RetentionLine<'a>),
}

/// Why bytes tell nothing: they are not as long as a line, or their code is neither "1" nor "2".
#[derive(Clone, Copy, Debug, PartialEq, Eq, Error)]
pub enum NotTold {
    #[error("not as long as a line")]
    Length,
    #[error("a code other than 1 and 2")]
    Code,
}

// What a line of the right length tells, by its layout; `retains` is a rule of the family, and guards one case.
fn tell_by<'a>(fields: &[Field], retains: bool, line: &'a [u8]) -> Result<Told<'a>, NotTold>
    ensures { said_by result ≡ said_in fields.now retains line.now }
{
    let heading = LineHeading {
        broker: named(fields, Item::Broker, line),
        group: GroupFields::of(fields, line),
        kind: named(fields, Item::Kind, line),
        date: named(fields, Item::Date, line),
    };
    let new_account = named(fields, Item::NewAccount, line);
    let all_securities = heading.group.security == ALL_SECURITIES.as_slice();
    match named(fields, Item::Code, line) {
        b"2" => Ok(Told::Deletion(heading)),
        b"1" if retains && all_securities => Ok(Told::Retention(RetentionLine {
            broker: heading.broker,
            account: heading.group.account,
            date: heading.date,
            new_account,
        })),
        b"1" => Ok(Told::Filing(FilingLine {
            heading,
            order: named(fields, Item::Order, line),
            new_broker: named(fields, Item::NewBroker, line),
            new_account,
            quantity: named(fields, Item::Quantity, line),
            amount: named(fields, Item::Amount, line),
            order_type: named(fields, Item::OrderType, line),
        })),
        _ => Err(NotTold::Code),
    }
}

/// What a line of a family tells. Code "1" files, or retains where the family does and the security is `ZZZZZZ`; code "2"
/// deletes. Bytes after the code are not looked at.
pub fn tell<'a, F: Family>(line: &'a [u8]) -> Result<Told<'a>, NotTold>
    ensures { said_by result ≡ said (F.Family.layout Line) (F.Family.extent Line) F.Family.allows.retains line.now }
{
    if line.len() != F::length(Form::Line) {
        return Err(NotTold::Length);
    }
    tell_by(F::fields(Form::Line), F::rules().retains, line)
}
