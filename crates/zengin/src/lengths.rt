// How long a bare file may be, and its bytes as records.
ghost use Rattle.std.specs.Prelude.{◌≡◌, ◌/◌, length, Some, None, OnOk, IfErr};
ghost use Rattle.zengin.specs.Files.{length_denial, records_of};

use denials::Denial;
use records::layouts::RECORD_BYTES;

/// The fewest records of a file: a header, a trailer and an end record.
pub const LEAST_RECORDS: usize = 3;

/// The most records of a file.
pub const MOST_RECORDS: usize = 10_000;

/// Passes the lengths that a bare file may have, and denies any other.
pub fn check_length(len: usize) -> Result<(), Denial>
    ensures passes { OnOk result (length_denial len ≡ None) }
    ensures denies { IfErr result (λ denial. length_denial len ≡ Some denial) }
{
    if len < LEAST_RECORDS * RECORD_BYTES || len % RECORD_BYTES != 0 {
        Err(Denial::BareLength)
    } else if len > MOST_RECORDS * RECORD_BYTES {
        Err(Denial::TooManyRecords)
    } else {
        Ok(())
    }
}

/// The whole records of a file.
pub fn records_of(file: &[u8]) -> &[[u8; 120]]
    ensures value { result.now ≡ records_of file.now }
    ensures len { length result.now ≡ length file.now / 120 }
{
    let (records, _) = file.as_chunks::<120>();
    records
}
