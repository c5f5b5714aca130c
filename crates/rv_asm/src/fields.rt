//! Fields of a file, the lowest byte first.
ghost use Rattle.std.specs.Prelude.{◌≡◌, ◌++◌, OnOk};
ghost use Rattle.std.specs.Int.{to_le_bytes, w32};
ghost use Rattle.std.specs.List.{flat_map};
ghost use Rattle.rv_asm.specs.Fields.{bytes_of, field_bytes};

use std::alloc::AllocError;

/// A field of one, two or four bytes.
#[derive(Clone, Copy)]
pub(crate) enum Field {
    Byte(u8),
    Half(u16),
    Word(u32),
}

/// Appends a field.
pub(crate) fn push_field(file: &mut Vec<u8>, field: Field) -> Result<(), AllocError>
    ensures { OnOk result (file.new.items ≡ file.old.items ++ field_bytes field) }
{
    match field {
        Field::Byte(n) => file.push(n)?,
        Field::Half(n) => file.extend_from_slice(&n.to_le_bytes())?,
        Field::Word(n) => file.extend_from_slice(&n.to_le_bytes())?,
    }
    Ok(())
}

/// Appends fields, one after another.
pub(crate) fn push_fields(file: &mut Vec<u8>, fields: &[Field]) -> Result<(), AllocError>
    ensures { OnOk result (file.new.items ≡ file.old.items ++ bytes_of fields.now) }
{
    for field in fields {
        push_field(file, *field)?;
    }
    Ok(())
}

/// Appends words.
pub(crate) fn push_words(file: &mut Vec<u8>, words: &[u32]) -> Result<(), AllocError>
    ensures { OnOk result (file.new.items
        ≡ file.old.items ++ flat_map (to_le_bytes w32) words.now) }
{
    for word in words {
        file.extend_from_slice(&word.to_le_bytes())?;
    }
    Ok(())
}
