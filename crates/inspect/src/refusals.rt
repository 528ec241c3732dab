// A refused request: the denial on the first line, and then in words what is wrong, in which record and field.
use crate::names::{field_name, sort_name};
use denials::{Denial, Fault, RecordFault};
use records::layouts::{Sort, field_covering};
use std::io;
use zengin::shown::{numbered_record, shown_field};

// Runtime and file are passed apart: a struct of the two would be made for one call and taken apart in it. The lines are this program's own,
// so they are written here, and no type prints itself as one.
pub fn print_refusal(rt: &HostRuntime, file: &[u8], denial: Denial) -> io::Result<()> {
    let told = denial.told();
    println!(rt; "REFUSED {} {} {}", told.number, told.record, told.column)?;
    match denial {
        Denial::BareLength => {
            println!(rt;
                "Without line ends, the file is not made of at least 3 whole records of 120 bytes."
            )
        }
        Denial::TooManyRecords => println!(rt; "The file has more than 10,000 records."),
        Denial::Faulty(fault) => print_fault(rt, file, fault, told.column),
        // What other calls are denied for: this program's never are.
        _ => println!(rt; "The file cannot be read."),
    }
}

// What is wrong in a record of the file, by the record's own sort.
fn print_fault(rt: &HostRuntime, file: &[u8], at: RecordFault, column: usize) -> io::Result<()> {
    let record = at.record;
    let Some(bytes) = numbered_record(file, record) else {
        return println!(rt; "Record {record} is missing: the file ends before its end record.");
    };
    let first = bytes[0];
    let Ok(sort) = Sort::try_from(first) else {
        return println!(rt;
            "Record {record} begins with byte {first:02X}h, which is no sort of record."
        );
    };
    let name = sort_name(sort);
    if let Fault::OutOfOrder = at.fault {
        return println!(rt; "Record {record} is {name}, which may not come here.");
    }
    let number = field_covering(sort, column).unwrap_or(0);
    let field = field_name(sort, number);
    print!(rt;
        "Record {record} is {name}; its field {number}, {field}, is wrong in column {column}: "
    )?;
    match at.fault {
        Fault::OutOfOrder => println!(rt; "the record may not come here."),
        Fault::WrongByte { column: _ } => print_byte(rt, bytes, column),
        Fault::WrongValue { column: _ } => print_value(rt, file, record, number),
        Fault::WrongCount => println!(rt; "it is not the number of data records in its group."),
        Fault::WrongAmount => println!(rt; "it is not the sum of the amounts in its group."),
    }
}

fn print_byte(rt: &HostRuntime, record: &[u8; 120], column: usize) -> io::Result<()> {
    match column.checked_sub(1).and_then(|index| record.get(index)) {
        Some(byte) => println!(rt; "byte {byte:02X}h may not stand here."),
        None => println!(rt; "a byte may not stand here."),
    }
}

fn print_value(rt: &HostRuntime, file: &[u8], record: usize, number: usize) -> io::Result<()> {
    match shown_field(file, record, number) {
        Some(shown) => {
            rt.write_all(shown.bytes)?;
            println!(rt; " is not allowed here.")
        }
        None => println!(rt; "its number is not allowed here."),
    }
}
