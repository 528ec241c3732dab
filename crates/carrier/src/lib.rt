// From raw bytes to a bare file, and back: line ends and one last end-of-file byte are dropped, or each record gets its line end.
#![tactic(auto)]

ghost use Rattle.std.specs.Prelude.{◌≡◌, ◌+◌, ◌*◌, ◌/◌, ◌≤◌, length, Ok, filter};
ghost use Rattle.records.specs.Layouts.{record_bytes};
ghost use Rattle.zengin.specs.Lawful.{Lawful};
ghost use Rattle.carrier.specs.Carrier.{line_bytes, is_line_end, is_kept, body as body_of, line_end, packed, over, put, unpack_answer, unpack_buffer, pack_answer, pack_buffer, Plain, Restores};

use denials::Denial;
use records::layouts::RECORD_BYTES;
use zengin::lengths::{check_length, records_of};

const CARRIAGE_RETURN: u8 = 0x0d;

const LINE_FEED: u8 = 0x0a;

const LINE_END: [u8; 2] = [CARRIAGE_RETURN, LINE_FEED];

const END_OF_FILE: u8 = 0x1a;

/// The length of a record and its line end.
pub const LINE_BYTES: usize = 122;

fn is_line_end(byte: u8) -> bool
    ensures { result ≡ is_line_end byte }
{
    byte == CARRIAGE_RETURN || byte == LINE_FEED
}

// Drops one end-of-file byte, if it is the last of all.
fn body_of(raw: &[u8]) -> &[u8]
    ensures { result.now ≡ body_of raw.now }
{
    match raw {
        [body @ .., END_OF_FILE] => body,
        _ => raw,
    }
}

// The length of the bare file. The bytes that are kept are summed up as ones and not counted behind a filter, whose way to the next of
// them is a loop inside the loop: that takes about twice the time.
fn bare_len(body: &[u8]) -> usize
    ensures { result ≡ length (filter is_kept body.now) }
{
    body.iter()
        .map(|byte| usize::from(!is_line_end(*byte)))
        .sum()
}

// Writes the bare file over the front of `out`, and gives `out` back. It goes through the fold beside the place: of what a closure
// borrows and a fold drops, the prover would not know what was written. A walk over what a filter keeps takes half as many steps again.
fn fill<'a>(body: &[u8], out: &'a mut [u8]) -> &'a mut [u8]
    requires { length (filter is_kept body.now) ≤ length out.old }
    ensures same_reference { result.ghost_name ≡ out.entry.ghost_name }
    ensures bytes { result.now ≡ over (filter is_kept body.now) out.old }
{
    body.iter()
        .fold((0, out), |(at, out), byte| {
            if is_line_end(*byte) {
                return (at, out);
            }
            out[at] = *byte;
            (at + 1, out)
        })
        .1
}

// Writes the bare file over the front of `out`.
fn copy_bare(body: &[u8], out: &mut [u8])
    requires { length (filter is_kept body.now) ≤ length out.old }
    ensures { out.new ≡ over (filter is_kept body.now) out.old }
{
    fill(body, out);
}

/// Writes the bare file over the front of `out`, and tells its length. It is counted first, so that a denied call writes nothing.
/// The buffer is the caller's, and its used length is told beside it, since carrying a file allocates nothing.
pub fn unpack(raw: &[u8], out: &mut [u8]) -> Result<usize, Denial>
    ensures answer { result ≡ unpack_answer raw.now (length out.old) }
    ensures buffer { out.new ≡ unpack_buffer raw.now out.old }
{
    let body = body_of(raw);
    let len = bare_len(body);
    check_length(len)?;
    if out.len() < len {
        return Err(Denial::ShortBuffer);
    }
    copy_bare(body, out);
    Ok(len)
}

// Writes a record and its line end at a place.
fn put_line(record: &[u8; 120], out: &mut [u8], at: usize)
    requires { at + 122 ≤ length out.old }
    ensures { out.new ≡ put (at + 120) line_end (put at «record».now out.old) }
{
    let end = at + RECORD_BYTES;
    out[at..end].copy_from_slice(record);
    out[end..at + LINE_BYTES].copy_from_slice(&LINE_END);
}

// Writes each record of a bare file as a line, over the front of `out`. A walk over `out` by chunks was tried: once they are given
// back, the prover knows their lengths and not their bytes.
fn put_lines(bare: &[u8], out: &mut [u8])
    requires { length bare.now / 120 * 122 ≤ length out.old }
    ensures { out.new ≡ over (packed bare.now) out.old }
{
    for (index, record) in records_of(bare).iter().enumerate() {
        put_line(record, out, index * LINE_BYTES);
    }
}

// The length rule, room in the buffer, and then each record with its line end.
fn pack_records(bare: &[u8], out: &mut [u8]) -> Result<usize, Denial>
    ensures answer { result ≡ pack_answer bare.now (length out.old) }
    ensures buffer { out.new ≡ pack_buffer bare.now out.old }
{
    check_length(bare.len())?;
    let packed_len = bare.len() / RECORD_BYTES * LINE_BYTES;
    if out.len() < packed_len {
        return Err(Denial::ShortBuffer);
    }
    put_lines(bare, out);
    Ok(packed_len)
}

/// Writes the packed file over the front of `out`, and tells its length. Of `bare` only the length is judged.
pub fn pack(bare: &[u8], out: &mut [u8]) -> Result<usize, Denial>
    ensures answer { result ≡ pack_answer bare.now (length out.old) }
    ensures buffer { out.new ≡ pack_buffer bare.now out.old }
    ensures packs { Lawful bare.now → length bare.now / record_bytes * line_bytes ≤ length out.old → result ≡ Ok (length bare.now / record_bytes * line_bytes) }
    ensures restores { Lawful bare.now → Restores bare.now result out.new }
    ensures restores_plain { Plain bare.now → Restores bare.now result out.new }
{
    pack_records(bare, out)
}
