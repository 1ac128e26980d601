// What the tests of a day compare.
use families::GroupFields;
use judge::{Ground, PlainTotal};

// The number of the ground on which a call is refused. No ground has the number 0: it stands in a table's column for a call that
// passes, so that the column needs no `Option`.
pub(crate) fn number_of<T: Drop>(answer: Result<T, Ground>) -> u8 {
    answer.err().map_or(0, u8::from)
}

// A group by its three names.
pub(crate) fn named<'a>(account: &'a [u8], security: &'a [u8], side: &'a [u8]) -> GroupFields<'a> {
    GroupFields {
        account,
        security,
        side,
    }
}

// A total by its figures, in a table's order: the shares in a trading unit, the quantity, and the amount in ten-thousandths of a yuan.
pub(crate) fn plain<'a>(
    account: &'a [u8],
    security: &'a [u8],
    side: &'a [u8],
    kind: u8,
    unit: u64,
    quantity: u64,
    amount: u64,
) -> PlainTotal<'a> {
    PlainTotal {
        group: named(account, security, side),
        kind,
        unit,
        quantity,
        amount,
    }
}
