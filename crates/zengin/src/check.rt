// The check: one walk over the records of a file and their fields, which ends at the first fault.
ghost use Rattle.std.specs.Prelude.{◌≡◌, ◌+◌, ◌/◌, ◌≤◌, length, Ok, Err};
ghost use Rattle.zengin.specs.Judged.{walk as walk_of, at_start, fault_at, summed, judged};
ghost use Rattle.zengin.specs.Lawful.{LawfulAsking, Lawful};
ghost use Rattle.zengin.specs.Offences.{NamesFirst, Placed};

use crate::lengths::{check_length, records_of};
use crate::order::Order;
use crate::totals::{Figures, Tally, Totals};
use denials::{Denial, Fault, RecordFault};
use records::fields::read_field;
use records::layouts::{Sort, layout};

// The fault of the record at this index, counted from 0. Nothing else makes a denial of a fault, so there is no `From` for it.
fn fault_at(index: usize, fault: Fault) -> Denial
    requires { index ≤ 10000 }
    ensures { result ≡ fault_at index fault }
{
    Denial::Faulty(RecordFault {
        record: index + 1,
        fault,
    })
}

// The first fault in file order, or what the file asks for.
fn walk(file: &[u8]) -> Result<Figures, Denial>
    requires { length file.now ≤ 1200000 }
    ensures { result ≡ walk_of file.now 0 (length file.now / 120) at_start }
{
    let records = records_of(file);
    let mut order = Order::Start;
    let mut tally = Tally::default();
    // A labelled block, left at the first fault with its value, is the form that the project sets for the check; so no `?` stands in it.
    'file: {
        for (index, record) in records.iter().enumerate() {
            let sort = match Sort::try_from(record[0]) {
                Ok(sort) => sort,
                Err(fault) => break 'file Err(fault_at(index, fault)),
            };
            if !order.admit(sort) {
                break 'file Err(fault_at(index, Fault::OutOfOrder));
            }
            let mut stated = Totals::default();
            // By number, and not field by field: reading a field by its sort and number asks nothing of the caller. Half open, since
            // the proof has one way out of the loop then, and two out of a closed range.
            for number in 1..layout(sort).len() + 1 {
                match read_field(record, sort, number) {
                    Ok(value) => stated.note(sort, number, value),
                    Err(fault) => break 'file Err(fault_at(index, fault)),
                }
            }
            match tally.with_record(sort, stated) {
                Ok(next) => tally = next,
                Err(fault) => break 'file Err(fault_at(index, fault)),
            }
        }
        match order {
            Order::Ended => Ok(tally.file),
            _ => Err(fault_at(records.len(), Fault::OutOfOrder)),
        }
    }
}

// The length rule, and then the walk.
fn figures_of(file: &[u8]) -> Result<Figures, Denial>
    ensures { result ≡ summed file.now }
{
    check_length(file.len())?;
    walk(file)
}

/// What a lawful file asks for, or the first fault of any other.
pub fn summary(file: &[u8]) -> Result<Figures, Denial>
    ensures answer { result ≡ summed file.now }
    ensures passes { (figures : Figures) → result ≡ Ok figures → LawfulAsking file.now figures }
    ensures lawful { (figures : Figures) → LawfulAsking file.now figures → result ≡ Ok figures }
    ensures first { (denial : Denial) → result ≡ Err denial → NamesFirst file.now denial }
    ensures named { (denial : Denial) → NamesFirst file.now denial → result ≡ Err denial }
{
    figures_of(file)
}

/// Passes exactly the lawful files, and names the first offending place of any other.
pub fn check(file: &[u8]) -> Result<(), Denial>
    ensures answer { result ≡ judged file.now }
    ensures passes { result ≡ Ok tt → Lawful file.now }
    ensures lawful { Lawful file.now → result ≡ Ok tt }
    ensures first { (denial : Denial) → result ≡ Err denial → NamesFirst file.now denial }
    ensures named { (denial : Denial) → NamesFirst file.now denial → result ≡ Err denial }
    ensures placed { (denial : Denial) → result ≡ Err denial → Placed denial }
{
    summary(file).map(|_| ())
}
