// The replies to the pieces of a filing.
ghost use Rattle.std.specs.Prelude.{All, ◌≡◌, ◌^◌, ◌<◌, ◌≤◌, length};
ghost use Rattle.octets.specs.Splice.{spliced};
ghost use Rattle.families.specs.declared.family.Form.TheVariants.{Reply};
ghost use Rattle.lines.specs.Entries.{row_worth};
ghost use Rattle.lines.specs.PieceReplies.{code_before, piece_replies};

use families::{Family, Form};
use forms::{PieceReply, put_forms_from};
use ledger::Entry;
use lots::Cents;

// The two codes are numbers, as the record has them: an enum would stand for one test alone.

// The error code of a piece that leaves its group unfinished, or is not the last.
const GOES_ON: u8 = 79;

// The error code of the last piece of a filing that completes its group.
const COMPLETES: u8 = 0;

// The error code of a piece that `left` others follow.
fn code_before(completes: bool, left: usize) -> u8
    ensures { result ≡ code_before completes left }
{
    if completes && left == 0 {
        COMPLETES
    } else {
        GOES_ON
    }
}

// Shares times price of an entry in units of `each` shares; the cast is bounded by what is required.
fn worth(entry: Entry, each: u64) -> Cents
    requires { row_worth each entry < 2 ^ 64 }
    ensures { result ≡ record { count = row_worth each entry } }
{
    let shares = u128::from(entry.quantity) * u128::from(each);
    Cents {
        count: (shares * u128::from(entry.price)) as u64,
    }
}

/// Writes the replies to a filing's entries one behind another from the front of a buffer, and leaves every other byte.
pub(crate) fn put_piece_replies<F: Family>(
    buf: &mut [u8],
    line: &[u8],
    entries: &[Entry],
    each: u64,
    completes: bool,
)
    requires room { length (piece_replies (F.layout Reply) line.now each completes entries.now) ≤ length buf.old }
    requires worths { All (λ x. row_worth each x < 2 ^ 64) entries.now }
    ensures { buf.new ≡ spliced buf.old 0 (piece_replies (F.layout Reply) line.now each completes entries.now) }
{
    let replies = entries.iter().enumerate().map(|(i, entry)| PieceReply {
        line,
        entry: *entry,
        amount: worth(*entry, each),
        code: code_before(completes, entries.len() - 1 - i),
    });
    put_forms_from::<F, PieceReply, _>(buf, Form::Reply, replies);
}
