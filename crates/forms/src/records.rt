// Records of a family: written at their place among others, and read field by field.
ghost use Rattle.std.specs.Prelude.{◌≡◌, ◌+◌, ◌*◌, ◌≤◌, List, length};
ghost use Rattle.std.specs.Iterator.{Drains, HoldsAlong, IsFinite};
ghost use Rattle.octets.specs.Splice.{spliced};
ghost use Rattle.octets.specs.Digits.{number_in};
ghost use Rattle.layout.specs.Layouts.{told, record_of, ReadsBack};
ghost use Rattle.forms.specs.Records.{records_of, NumbersBack};

use families::{Family, Form};
use layout::{Contents, Item, named, put_record};
use octets::read_digits;

/// Inner: writes record `k`, from 0, of a buffer of such records, and leaves every other byte. What is written reads back.
// The record is told by its number in the whole buffer, since the promise is about every byte of that.
pub fn put_form<F: Family, C: Contents>(buf: &mut [u8], form: Form, k: usize, contents: &C)
    requires { k * F.Family.extent form + F.Family.extent form ≤ length buf.old }
    ensures memory { buf.new ≡ spliced buf.old (k * F.Family.extent form)
        (record_of (C.Contents.says contents.now) (F.Family.layout form)) }
    ensures back { ReadsBack (F.Family.layout form) }
{
    let at = k * F::length(form);
    put_record(buf, at, F::fields(form), contents);
}

/// Inner: writes records one behind another from the front of a buffer, and leaves every other byte.
pub fn put_forms<F: Family, C: Contents>(buf: &mut [u8], form: Form, contents: &[C])
    requires { length (records_of C.Contents.says (F.Family.layout form) contents.now) ≤ length buf.old }
    ensures { buf.new ≡ spliced buf.old 0 (records_of C.Contents.says (F.Family.layout form) contents.now) }
{
    // Not by `put_forms_from`: an iterator over a slice gives references, and contents need be neither `Copy` nor `Drop`.
    let mut at = 0;
    for c in contents {
        put_record(buf, at, F::fields(form), c);
        at += F::length(form);
    }
}

/// Inner: writes the records of what an iterator gives one behind another from the front of a buffer, and leaves every other
/// byte.
pub fn put_forms_from<F: Family, C: Contents + Drop, I: Iterator<Item = C> + Drop>(
    buf: &mut [u8],
    form: Form,
    contents: I,
)
    requires calls { I.can_next contents × IsFinite (I.remaining contents) }
    requires room { HoldsAlong I.next_gives contents
        (λ cs. length (records_of C.Contents.says (F.Family.layout form) cs) ≤ length buf.old) }
    ensures { (cs : List C) × Drains I.next_gives contents cs × buf.new ≡ spliced buf.old 0
        (records_of C.Contents.says (F.Family.layout form) cs) }
{
    let length = F::length(form);
    // The place is counted, since chunks of the buffer want a length above 0, and the trait does not promise one.
    let mut at = 0;
    for c in contents {
        put_record(buf, at, F::fields(form), &c);
        at += length;
    }
}

/// What a record of a family tells of an item, by its bytes; nothing where such a record has no such field.
pub fn field<'a, F: Family>(form: Form, item: Item, record: &'a [u8]) -> &'a [u8]
    ensures { result.now ≡ told (F.Family.layout form) item «record».now }
{
    named(F::fields(form), item, record)
}

/// The number that a record of a family tells of an item, or nothing where that is not digits. Numbers that fit their field
/// read back.
pub fn number<F: Family>(form: Form, item: Item, record: &[u8]) -> Option<u64>
    ensures value { result ≡ number_in (told (F.Family.layout form) item «record».now) }
    ensures back { NumbersBack (F.Family.layout form) }
{
    read_digits(field::<F>(form, item, record))
}
