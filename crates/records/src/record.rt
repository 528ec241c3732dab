// One record by itself: its sort, if it breaks no field's rule.
ghost use Rattle.std.specs.Prelude.{◌≡◌, Ok, Err};
ghost use Rattle.records.specs.Fields.{test_record};
ghost use Rattle.records.specs.Kept.{IsA, FirstFault};

use crate::fields::read;
use crate::layouts::{Sort, layout};
use denials::Fault;

// The sort of a record, and each of its fields in turn.
fn sort_if_kept(record: &[u8; 120]) -> Result<Sort, Fault>
    ensures { result ≡ test_record «record».now }
{
    let sort = Sort::try_from(record[0])?;
    for field in layout(sort) {
        read(record, *field)?;
    }
    Ok(sort)
}

/// The sort of a record that keeps the rules of its own layout, or its first fault.
pub fn test_record(record: &[u8; 120]) -> Result<Sort, Fault>
    ensures answer { result ≡ test_record «record».now }
    ensures passes { (k : Sort) → result ≡ Ok k → IsA k «record».now }
    ensures kept { (k : Sort) → IsA k «record».now → result ≡ Ok k }
    ensures first { (fault : Fault) → result ≡ Err fault → FirstFault «record».now fault }
    ensures named { (fault : Fault) → FirstFault «record».now fault → result ≡ Err fault }
{
    sort_if_kept(record)
}
