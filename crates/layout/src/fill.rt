// Writing a record field by field.
ghost use Rattle.std.specs.Prelude.{◌≡◌, ◌+◌, ◌≤◌, length};
ghost use Rattle.octets.specs.Splice.{spliced};
ghost use Rattle.layout.specs.Values.{content_by, fitted, bytes_in};
ghost use Rattle.layout.specs.Layouts.{width_of, record_of};

use crate::contents::{Contents, Value};
use crate::field::Field;
use octets::{put_digits, put_packed};

// Writes a text over a field, cut or followed by blanks to its width.
fn put_text(field: &mut [u8], text: &[u8])
    ensures { field.new ≡ fitted (length field.old) text.now }
{
    let n = text.len().min(field.len());
    field[..n].copy_from_slice(&text[..n]);
    field[n..].fill(b' ');
}

// Writes what is to stand in a field.
fn put_value(field: &mut [u8], value: Value<'_>)
    ensures { field.new ≡ bytes_in (length field.old) (content_by value.entry) }
{
    match value {
        Value::Text(text) => put_text(field, text),
        Value::Packed(n) => put_packed(field, n),
        Value::Number(n) => put_digits(field, n),
        Value::Blank => field.fill(b' '),
    }
}

/// Inner: writes a record from `at` on, one field after another, and leaves every other byte.
pub fn put_record<C: Contents>(buf: &mut [u8], at: usize, fields: &[Field], contents: &C)
    requires { at + width_of fields.now ≤ length buf.old }
    ensures { buf.new ≡ spliced buf.old at (record_of (C.Contents.says contents.now) fields.now) }
{
    // The place is counted along, since a layout's fields are not promised to begin where their `first` says.
    let mut pos = at;
    for f in fields {
        put_value(&mut buf[pos..pos + f.width], contents.value(*f));
        pos += f.width;
    }
}
