// One field of one record: the class of its bytes, then the rule on its number.
ghost use Rattle.std.specs.Prelude.{◌≡◌, ◌+◌, ◌^◌, ◌<◌, ◌≤◌, true, not, length, position, IfOk};
ghost use Rattle.records.specs.Layouts.{first, class, width, holds as holds_of, is_date, keeps as keeps_of, numbered};
ghost use Rattle.records.specs.Fields.{first_wrong_byte, number_in, judged_bytes, is_sound, read_field, read_if_any, wrong_from, spelled};

use crate::layouts::{Class, Field, Rule, Sort, numbered_field};
use denials::Fault;

// The most digits of a field that is read as one number.
const MOST_DIGITS: usize = 12;

// No year is known, so February has 29 days.
const MONTH_DAYS: [u64; 12] = [31, 29, 31, 30, 31, 30, 31, 31, 30, 31, 30, 31];

impl Class {
    fn holds(self, byte: u8) -> bool
        ensures { result ≡ holds_of self byte }
    {
        match self {
            Class::Number => byte.is_ascii_digit(),
            Class::Character => matches!(
                byte,
                b'0'..=b'9' | b'A'..=b'Z' | 0xb1..=0xdd | 0xde | 0xdf | b' ' | b'(' | b')' | b'-' | b'.'
            ),
            Class::Filler => byte == b' ',
        }
    }
}

fn is_date(month: u64, day: u64) -> bool
    ensures { result ≡ is_date month day }
{
    // `as usize`, since a `try_from` would have a way out that no month takes.
    (1..=12).contains(&month) && (1..=MONTH_DAYS[(month - 1) as usize]).contains(&day)
}

impl Rule {
    fn keeps(self, number: u64) -> bool
        ensures { result ≡ keeps_of self number }
    {
        match self {
            Rule::Any => true,
            Rule::Is(wanted) => number == wanted,
            Rule::AtMost(most) => number <= most,
            Rule::NotZero => number > 0,
            Rule::Date => is_date(number / 100, number % 100),
            Rule::BillerDeposit => matches!(number, 1 | 2 | 9),
            Rule::PayerDeposit => matches!(number, 1 | 2 | 3 | 9),
        }
    }
}

impl Field {
    // The field's bytes in a record.
    fn bytes(self, record: &[u8; 120]) -> &[u8]
        requires { is_sound self ≡ true }
        ensures len { length result.now ≡ width self }
        ensures wrong { wrong_from (class self) (first self) result.now ≡ first_wrong_byte (class self) «record».now (first self) (width self) }
        ensures spelled { spelled 0 result.now ≡ number_in «record».now self }
    {
        let Field(first, last, _, _) = self;
        &record[first - 1..last]
    }
}

// The place of the first byte that is not of the class, counted from 0.
fn wrong_index(bytes: &[u8], class: Class) -> Option<usize>
    ensures { result ≡ position (λ b. not (holds_of class b)) bytes.now }
{
    bytes.iter().position(|byte| !class.holds(*byte))
}

// Tests bytes that begin in this column.
fn test_bytes(bytes: &[u8], class: Class, first: usize) -> Result<(), Fault>
    requires { first + length bytes.now ≤ 121 }
    ensures { result ≡ judged_bytes (wrong_from class first bytes.now) tt }
{
    match wrong_index(bytes, class) {
        Some(index) => Err(Fault::WrongByte {
            column: first + index,
        }),
        None => Ok(()),
    }
}

// Tests bytes that begin in this column for digits, and reads their number on the way: a walk of its own, so that no byte is looked at
// twice, once for its class and once for its digit.
fn read_digits(digits: &[u8], first: usize) -> Result<u64, Fault>
    requires place { first + length digits.now ≤ 121 }
    requires few { length digits.now ≤ 12 }
    ensures value { result ≡ judged_bytes (wrong_from Class.Number first digits.now) (spelled 0 digits.now) }
    ensures below { IfOk result (λ v. v < 10 ^ 12) }
{
    let mut value: u64 = 0;
    for (index, digit) in digits.iter().enumerate() {
        if !Class::Number.holds(*digit) {
            return Err(Fault::WrongByte {
                column: first + index,
            });
        }
        value = value * 10 + u64::from(*digit - b'0');
    }
    Ok(value)
}

// The number in a field that is read as one, else 0; a wrong byte comes before a wrong value. That the number is below 10^12 is
// handed up to the public call as a clause: a type for such numbers would be taken apart at once by each of the three calls.
pub(crate) fn read(record: &[u8; 120], field: Field) -> Result<u64, Fault>
    requires { is_sound field ≡ true }
    ensures value { result ≡ read_field «record».now field }
    ensures below { IfOk result (λ v. v < 10 ^ 12) }
{
    let Field(first, _, class, rule) = field;
    let bytes = field.bytes(record);
    match class {
        Class::Number if bytes.len() <= MOST_DIGITS => {
            let value = read_digits(bytes, first)?;
            if rule.keeps(value) {
                Ok(value)
            } else {
                Err(Fault::WrongValue { column: first })
            }
        }
        _ => {
            test_bytes(bytes, class, first)?;
            Ok(0)
        }
    }
}

/// Tests the field of that number, and tells what its digits spell: 0 where the field is no number, has more than 12 digits, or is none of the sort's.
// 0 and no `Option` where there is no number, since callers add up what they read.
pub fn read_field(record: &[u8; 120], sort: Sort, number: usize) -> Result<u64, Fault>
    ensures value { result ≡ read_if_any «record».now (numbered sort number) }
    ensures below { IfOk result (λ v. v < 10 ^ 12) }
{
    match numbered_field(sort, number) {
        Some(field) => read(record, field),
        None => Ok(0),
    }
}
