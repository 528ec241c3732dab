// What one group of a file asks for.
ghost use Rattle.std.specs.Prelude.{◌≡◌, ◌≢◌, ℕ, ◌+◌, ◌*◌, ◌≤◌, length, Some, None};
ghost use Rattle.records.specs.Layouts.{sort_of, numbered};
ghost use Rattle.records.specs.Fields.{byte_in, read_if_any};
ghost use Rattle.zengin.specs.Groups.{both_read, head, totals_stated, head_stated, group_closed_by, group_asking, Closes};
ghost use Rattle.zengin.specs.Lawful.{Group as GroupAt, Lawful};

use crate::shown::numbered_record;
use crate::totals::Totals;
use records::fields::read_field;
use records::layouts::{HEADER_BILLER, HEADER_DATE, Sort, TRAILER_AMOUNT, TRAILER_COUNT};

/// A group: its header's biller code and transfer date, and the count and amount it asks for.
#[derive(Clone, Copy, Debug, PartialEq, Eq)]
pub struct Group {
    pub biller: u64,
    pub month: u64,
    pub day: u64,
    pub requested: Totals,
}

// Two of the numbers in a record, if it is of this sort and both can be read.
fn two_numbers(record: &[u8; 120], sort: Sort, first: usize, second: usize) -> Option<(u64, u64)>
    ensures here { sort_of (byte_in «record».now 1) ≡ Some sort → result ≡ both_read head (read_if_any «record».now (numbered sort first)) (read_if_any «record».now (numbered sort second)) }
    ensures elsewhere { (sort_of (byte_in «record».now 1) ≢ Some sort) → result ≡ None }
{
    if Sort::try_from(record[0]) != Ok(sort) {
        return None;
    }
    let first = read_field(record, sort, first).ok()?;
    let second = read_field(record, sort, second).ok()?;
    Some((first, second))
}

// The count and amount that a trailer states.
fn totals_stated(record: &[u8; 120]) -> Option<Totals>
    ensures { result ≡ totals_stated «record».now }
{
    let (count, amount) = two_numbers(record, Sort::Trailer, TRAILER_COUNT, TRAILER_AMOUNT)?;
    Some(Totals { count, amount })
}

// The biller code and the transfer date that a header states.
fn head_stated(record: &[u8; 120]) -> Option<(u64, u64)>
    ensures { result ≡ head_stated «record».now }
{
    two_numbers(record, Sort::Header, HEADER_BILLER, HEADER_DATE)
}

fn closed_group(file: &[u8], trailer: usize) -> Option<Group>
    ensures { result ≡ group_closed_by file.now trailer }
{
    let closing = numbered_record(file, trailer)?;
    let requested = totals_stated(closing)?;
    // `as usize`, since a `try_from` would have a way out that no count takes.
    let header = (trailer - 1).saturating_sub(requested.count as usize);
    let opening = numbered_record(file, header)?;
    let (biller, date) = head_stated(opening)?;
    Some(Group {
        biller,
        month: date / 100,
        day: date % 100,
        requested,
    })
}

/// What is asked for by the group that the record of that number closes, counted from 1. Of other files than lawful ones it tells what
/// the trailer states, if a header stands as many records before it as it states.
pub fn group_closed_by(file: &[u8], trailer: usize) -> Option<Group>
    ensures answer { result ≡ group_closed_by file.now trailer }
    ensures asks { (s n : ℕ) → GroupAt file.now s n → trailer ≡ s + 1 + n + 1 → trailer * 120 ≤ length file.now → result ≡ Some (group_asking file.now s n) }
    ensures only { (group : Group) → Lawful file.now → result ≡ Some group → Closes file.now trailer group }
{
    closed_group(file, trailer)
}
