// The layouts of the four records: one table for each, columns counted from 1.
ghost use Rattle.std.specs.Prelude.{◌≡◌, ◌<◌, ◌≤◌, true, length, is_some, ok_or, position, IfSome};
ghost use Rattle.denials.specs.declared.Fault.TheVariants.{OutOfOrder};
ghost use Rattle.records.specs.Layouts.{sort_of, fields_of, numbered, Inside, covers, covered_by, tiles};

use denials::Fault;

/// The length of a record.
pub const RECORD_BYTES: usize = 120;

/// The number of a header's biller code among its fields.
pub const HEADER_BILLER: usize = 4;

/// The number of a header's transfer date among its fields.
pub const HEADER_DATE: usize = 6;

/// The number of a data record's amount among its fields.
pub const DATA_AMOUNT: usize = 10;

/// The number of a trailer's count among its fields.
pub const TRAILER_COUNT: usize = 2;

/// The number of a trailer's amount among its fields.
pub const TRAILER_AMOUNT: usize = 3;

/// The four sorts of records.
#[derive(Clone, Copy, Debug, PartialEq, Eq)]
pub enum Sort {
    Header,
    Data,
    Trailer,
    End,
}

/// The bytes that a field may hold.
#[derive(Clone, Copy)]
pub enum Class {
    Number,
    Character,
    Filler,
}

/// What a field's number has to be.
#[derive(Clone, Copy)]
pub enum Rule {
    Any,
    Is(u64),
    AtMost(u64),
    NotZero,
    Date,
    BillerDeposit,
    PayerDeposit,
}

/// A field: its first column, its last column, its class and its rule.
// A tuple struct without an invariant on its columns: a static, as the tables are, cannot hold a struct with a ghost field or a model.
#[derive(Clone, Copy)]
pub struct Field(pub usize, pub usize, pub Class, pub Rule);

const HEADER: [Field; 13] = [
    Field(1, 1, Class::Number, Rule::Is(1)),
    Field(2, 3, Class::Number, Rule::Is(91)),
    Field(4, 4, Class::Number, Rule::Is(0)),
    Field(5, 14, Class::Number, Rule::Any),
    Field(15, 54, Class::Character, Rule::Any),
    Field(55, 58, Class::Number, Rule::Date),
    Field(59, 62, Class::Number, Rule::Any),
    Field(63, 77, Class::Character, Rule::Any),
    Field(78, 80, Class::Number, Rule::Any),
    Field(81, 95, Class::Character, Rule::Any),
    Field(96, 96, Class::Number, Rule::BillerDeposit),
    Field(97, 103, Class::Number, Rule::Any),
    Field(104, 120, Class::Filler, Rule::Any),
];

const DATA: [Field; 14] = [
    Field(1, 1, Class::Number, Rule::Is(2)),
    Field(2, 5, Class::Number, Rule::Any),
    Field(6, 20, Class::Character, Rule::Any),
    Field(21, 23, Class::Number, Rule::Any),
    Field(24, 38, Class::Character, Rule::Any),
    Field(39, 42, Class::Filler, Rule::Any),
    Field(43, 43, Class::Number, Rule::PayerDeposit),
    Field(44, 50, Class::Number, Rule::Any),
    Field(51, 80, Class::Character, Rule::Any),
    Field(81, 90, Class::Number, Rule::NotZero),
    Field(91, 91, Class::Number, Rule::AtMost(2)),
    Field(92, 111, Class::Number, Rule::Any),
    Field(112, 112, Class::Number, Rule::Is(0)),
    Field(113, 120, Class::Filler, Rule::Any),
];

const TRAILER: [Field; 8] = [
    Field(1, 1, Class::Number, Rule::Is(8)),
    Field(2, 7, Class::Number, Rule::Any),
    Field(8, 19, Class::Number, Rule::Any),
    Field(20, 25, Class::Number, Rule::Is(0)),
    Field(26, 37, Class::Number, Rule::Is(0)),
    Field(38, 43, Class::Number, Rule::Is(0)),
    Field(44, 55, Class::Number, Rule::Is(0)),
    Field(56, 120, Class::Filler, Rule::Any),
];

const END: [Field; 2] = [
    Field(1, 1, Class::Number, Rule::Is(9)),
    Field(2, 120, Class::Filler, Rule::Any),
];

/// The sort that a record's first byte tells. A record that begins with any other byte may come nowhere.
impl TryFrom<u8> for Sort {
    type Error = Fault;

    ghost try_from_gives = { λ byte told. told ≡ ok_or (sort_of byte) OutOfOrder };

    fn try_from(byte: u8) -> Result<Sort, Fault> {
        match byte {
            b'1' => Ok(Sort::Header),
            b'2' => Ok(Sort::Data),
            b'8' => Ok(Sort::Trailer),
            b'9' => Ok(Sort::End),
            _ => Err(Fault::OutOfOrder),
        }
    }
}

/// The fields of a sort of record, from left to right.
pub fn layout(sort: Sort) -> &'static [Field]
    ensures { result.now ≡ fields_of sort }
{
    match sort {
        Sort::Header => &HEADER,
        Sort::Data => &DATA,
        Sort::Trailer => &TRAILER,
        Sort::End => &END,
    }
}

/// The field of that number, counted from 1.
// Sort and number are passed apart, since a pair of them would be taken apart at once.
pub fn numbered_field(sort: Sort, number: usize) -> Option<Field>
    ensures value { result ≡ numbered sort number }
    ensures inside { IfSome result Inside }
{
    let index = number.checked_sub(1)?;
    layout(sort).get(index).copied()
}

fn is_covered(field: &Field, column: usize) -> bool
    ensures { result ≡ covers field.now column }
{
    let Field(first, last, _, _) = *field;
    (first..=last).contains(&column)
}

// The place of the field that covers a column, counted from 0.
fn covering_index(fields: &[Field], column: usize) -> Option<usize>
    ensures value { result ≡ position (λ f. covers f column) fields.now }
    ensures within { IfSome result (λ i. i < length fields.now) }
{
    fields.iter().position(|field| is_covered(field, column))
}

/// The number of the field that covers a column. The fields of a record tile its 120 columns.
pub fn field_covering(sort: Sort, column: usize) -> Option<usize>
    ensures answer { result ≡ covered_by column 1 (fields_of sort) }
    ensures covers { 1 ≤ column → column ≤ 120 → is_some result ≡ true }
    ensures tiles { tiles 1 (fields_of sort) ≡ true }
{
    covering_index(layout(sort), column).map(|index| index + 1)
}
