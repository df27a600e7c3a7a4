//! The fields of records.
ghost use Rattle.std.specs.Prelude.{◌≡◌};
ghost use Rattle.type_order.specs.Fields.{has_all, part_of};

/// A field of a record.
#[derive(Clone, Copy, Debug, PartialEq, Eq)]
pub struct Field {
    /// The field's name.
    pub name: u32,
    /// The number of its type.
    pub part: usize,
}

/// The type of the field with this name: that of the first one, if there are several.
pub fn part_of(fields: &[Field], name: u32) -> Option<usize>
    ensures { result ≡ part_of fields.now name }
{
    for field in fields {
        if field.name == name {
            return Some(field.part);
        }
    }
    None
}

/// Whether each field of the second record is one of the first, by its name.
pub(crate) fn has_all(fields: &[Field], others: &[Field]) -> bool
    ensures { result ≡ has_all fields.now others.now }
{
    for other in others {
        if part_of(fields, other.name).is_none() {
            return false;
        }
    }
    true
}
