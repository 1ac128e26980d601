// Finding a field in a layout, and its bytes in a record.
ghost use Rattle.std.specs.Prelude.{◌≡◌};
ghost use Rattle.layout.specs.Layouts.{part_of, field_of, told};

use crate::field::{Field, Item};

/// The bytes of a record at the place of a field, as far as the record goes.
pub fn part(record: &[u8], field: Field) -> &[u8]
    ensures { result.now ≡ part_of field «record».now }
{
    let rest = record.get(field.first.saturating_sub(1)..).unwrap_or(&[]);
    rest.get(..field.width).unwrap_or(rest)
}

/// The field of a layout that tells an item; the first, where there are several.
pub fn find(fields: &[Field], item: Item) -> Option<Field>
    ensures { result ≡ field_of item fields.now }
{
    fields.iter().find(|f| f.item == item).copied()
}

/// What a record of a layout tells of an item, by its bytes; nothing where the layout has no such field.
// Layout and record come side by side: a struct of the two would be made for one call, and take no clause away.
// No bytes and no `None`, so that each part has a value, and who judges it finds it malformed.
pub fn named<'a>(fields: &[Field], item: Item, record: &'a [u8]) -> &'a [u8]
    ensures { result.now ≡ told fields.now item «record».now }
{
    find(fields, item).map_or(&[], |field| part(record, field))
}
