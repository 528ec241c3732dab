// Records and fields of a file by their numbers, handed out as parts of the caller's own bytes.
ghost use Rattle.std.specs.Prelude.{◌≡◌};
ghost use Rattle.std.specs.Option.{option_map};
ghost use Rattle.zengin.specs.Shown.{record_numbered, field_shown};

use crate::lengths::records_of;
use records::layouts::{Field, RECORD_BYTES, Sort, numbered_field};

/// A field: its bytes, the number of its record and its first column.
#[derive(Clone, Copy)]
pub struct Shown<'a> {
    pub bytes: &'a [u8],
    pub record: usize,
    pub column: usize,
}

/// The record of that number among the whole records of the bytes, counted from 1.
pub fn numbered_record(file: &[u8], number: usize) -> Option<&[u8; 120]>
    ensures { option_map (λ x. x.now) result ≡ record_numbered file.now number }
{
    let index = number.checked_sub(1)?;
    records_of(file).get(index)
}

/// The field of that number in the record of that number, both counted from 1, by its place alone.
pub fn shown_field(file: &[u8], record: usize, number: usize) -> Option<Shown<'_>>
    ensures { option_map (λ s. (s.bytes.now, s.«record», s.column)) result ≡ field_shown file.now «record» number }
{
    if file.len() % RECORD_BYTES != 0 {
        return None;
    }
    let bytes = numbered_record(file, record)?;
    let sort = Sort::try_from(bytes[0]).ok()?;
    let Field(first, last, _, _) = numbered_field(sort, number)?;
    // Cut here, since the call that cuts a field out of a record asks that the field is one of a layout.
    Some(Shown {
        bytes: &bytes[first - 1..last],
        record,
        column: first,
    })
}
