// What is to stand in the fields of a record.
ghost use Rattle.std.specs.Prelude.{◌≡◌};
ghost use Rattle.layout.specs.Values.{Content, content_by};
ghost use Rattle.layout.specs.declared.field.Field.{Field};

use crate::field::Field;

/// What is to stand in a field.
#[derive(Clone, Copy)]
pub enum Value<'a> {
    /// Bytes as they are, cut or followed by blanks to the field's width.
    Text(&'a [u8]),
    /// A packed text, its first byte the lowest.
    Packed(u64),
    /// A number in digits.
    Number(u128),
    Blank,
}

/// Something that tells what is to stand in each field of a record.
pub trait Contents {
    ghost says: { Self → Field → Content };

    fn value(&self, field: Field) -> Value<'_>
        ensures { content_by result ≡ says self.now field };
}
