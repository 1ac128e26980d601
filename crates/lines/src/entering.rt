// Entering a filing: its pieces become entries of the ledger, and each gets its reply.
ghost use Rattle.std.specs.Prelude.{◌≡◌, ◌+◌, ◌*◌, ◌^◌, ◌<◌, ◌++◌, length};
ghost use Rattle.octets.specs.Splice.{spliced};
ghost use Rattle.families.specs.declared.family.Form.TheVariants.{Reply};
ghost use Rattle.judge.specs.Wanted.{count_of};
ghost use Rattle.lines.specs.Entries.{each_of};
ghost use Rattle.lines.specs.PieceReplies.{piece_replies};
ghost use Rattle.lines.specs.Enter.{before_by, before_in, entries_in, AreHeld, Fits, HoldsFit};

use crate::appending::append_all;
use crate::entries::{Before, Entering, entries_of};
use crate::open::Survey;
use crate::piece_replies::put_piece_replies;
use families::Family;
use judge::Wanted;
use ledger::{Held, Ledger};

// What is held as an entry's figures have it: a quantity, and shares times price at `each` shares to a unit. The casts are bounded
// by what is required; a `try_from` would want a case that never comes.
fn scaled(held: Held, each: u64) -> (u32, u64)
    requires quantity { held.quantity < 2 ^ 32 }
    requires amount { held.amount * each < 2 ^ 64 }
    ensures { result ≡ (held.quantity, held.amount * each) }
{
    let amount = held.amount * u128::from(each);
    (held.quantity as u32, amount as u64)
}

impl Entering {
    // From where the running figures go on.
    fn before(self, survey: Survey, next: u32) -> Before
        requires { HoldsFit self survey.held survey.of_type }
        ensures { result ≡ before_by self survey.held survey.of_type next }
    {
        let each = self.lot.shares_each().count;
        let (quantity, amount) = scaled(survey.held, each);
        let (type_quantity, type_amount) = if self.by_type {
            scaled(survey.of_type, each)
        } else {
            (0, 0)
        };
        Before {
            trade_number: next,
            quantity,
            amount,
            type_quantity,
            type_amount,
        }
    }
}

/// A filing that was accepted: what its entries have in common, what it asks for, what it was judged by, the next trade number,
/// and whether it leaves nothing of its group open.
#[derive(Clone, Copy)]
pub struct Accepted {
    pub entering: Entering,
    pub wanted: Wanted,
    pub survey: Survey,
    pub next: u32,
    pub completes: bool,
}

/// Inner: enters a filing for which there is room: its pieces become entries behind those of the ledger, each under the next
/// trade number, and each gets a reply in the buffer, whose other bytes are left. Answers how many there are.
pub fn enter<F: Family, L: Ledger>(
    ledger: &mut L,
    buf: &mut [u8],
    line: &[u8],
    filing: Accepted,
) -> usize
    requires held { AreHeld (L.rows ledger.old) filing.entering filing.survey }
    requires room { Fits (L.rows ledger.old) (L.room ledger.old) filing.entering filing.wanted
        filing.next (F.layout Reply) line.now filing.completes (length buf.old) }
    ensures answer { result ≡ count_of filing.wanted }
    ensures bound { filing.next + result < 2 ^ 32 }
    ensures list { L.rows ledger.new ≡ L.rows ledger.old ++ entries_in (L.rows ledger.old) filing.entering filing.next filing.wanted }
    ensures same { L.room ledger.new ≡ L.room ledger.old }
    ensures kept { L.lent ledger.new ≡ L.lent ledger.old }
    ensures memory { buf.new ≡ spliced buf.old 0
        (piece_replies (F.layout Reply) line.now (each_of filing.entering) filing.completes
        (entries_in (L.rows ledger.old) filing.entering filing.next filing.wanted)) }
{
    let start = filing.entering.before(filing.survey, filing.next);
    let each = filing.entering.lot.shares_each();
    let entries = entries_of(filing.entering, start, filing.wanted.pieces());
    append_all(ledger, entries.as_slice());
    put_piece_replies::<F>(buf, line, entries.as_slice(), each.count, filing.completes);
    entries.len()
}
