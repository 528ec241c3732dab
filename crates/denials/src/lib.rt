// Why a call is denied: the faults of a record, the denials of a call, and the four things that a denial tells.
#![tactic(auto)]

ghost use Rattle.std.specs.Prelude.{◌≡◌};
ghost use Rattle.denials.specs.declared.RunDenial.TheVariants.{Broken};
ghost use Rattle.denials.specs.Denials.{told, told_at, told_in_run, carried, tells};

use std::error::Error;
use std::fmt;

/// The part of the engine whose rule was broken.
#[derive(Clone, Copy, Debug, PartialEq, Eq)]
pub enum Layer {
    Carrier,
    Order,
    Record,
    Totals,
    Run,
    Number,
    Register,
    Accounts,
}

impl fmt::Display for Layer {
    ghost use Rattle.std.specs.Prelude.{Some};
    ghost use Rattle.denials.specs.Printed.{layer_text};

    ghost output = { λ layer. Some (layer_text layer) };

    fn fmt<W: fmt::Write>(&self, f: &mut fmt::Formatter<W>) -> fmt::Result {
        f.write_str(match self {
            Layer::Carrier => "carrier",
            Layer::Order => "order",
            Layer::Record => "record",
            Layer::Totals => "totals",
            Layer::Run => "run",
            Layer::Number => "number",
            Layer::Register => "register",
            Layer::Accounts => "accounts",
        })
    }
}

/// What is wrong in a record. Columns count from 1.
#[derive(Clone, Copy, Debug, PartialEq, Eq)]
pub enum Fault {
    /// The record may not come here, or its first byte is of no sort.
    OutOfOrder,
    /// The byte in this column is not of its field's class.
    WrongByte { column: usize },
    /// The number in the field that begins in this column breaks the field's rule.
    WrongValue { column: usize },
    /// A trailer's count is not the number of its group's data records.
    WrongCount,
    /// A trailer's amount is not the sum of its group's amounts.
    WrongAmount,
}

/// A fault with the number of its record, counted from 1.
#[derive(Clone, Copy, Debug, PartialEq, Eq)]
pub struct RecordFault {
    pub record: usize,
    pub fault: Fault,
}

/// Why a run does not take its next record.
#[derive(Clone, Copy, Debug, PartialEq, Eq)]
pub enum RunDenial {
    /// The buffer has another length than at opening.
    OtherLength,
    /// Every record has been taken.
    NoRecordLeft,
    /// The next record is at fault by itself, or is a trailer that does not state what the run met. The fault is carried whole.
    Broken(RecordFault),
    /// The next record, which has this number, is of another sort than the call takes.
    OtherSort { record: usize },
}

/// A record's fault, carried by the denial of the run.
impl From<RecordFault> for RunDenial {
    ghost from_gives = { λ f r. r ≡ Broken f };

    fn from(fault: RecordFault) -> RunDenial {
        RunDenial::Broken(fault)
    }
}

/// Why a call was denied.
#[derive(Clone, Copy, Debug, PartialEq, Eq)]
pub enum Denial {
    /// The bare length is below three records, or not whole records.
    BareLength,
    /// There are more records than a file may have.
    TooManyRecords,
    /// The raw file is longer than the program takes.
    RawTooLong,
    /// A record of the file is at fault.
    Faulty(RecordFault),
    /// The output buffer is too short.
    ShortBuffer,
    /// A run does not take its next record.
    Run(RunDenial),
    /// A number is outside its width, or a claim's amount is 0.
    OutsideWidth,
    /// The register holds as many rows as it may.
    RegisterFull,
    /// The row to be listed is there already.
    AlreadyListed,
    /// The row to be struck off is not there.
    NotListed,
    /// A line of the bank's accounts, counted from 1, is malformed.
    MalformedLine { line: usize },
    /// The bank's accounts are longer than the program takes.
    AccountsTooLong,
}

/// What a denial tells: its number, its layer and its place, which is 0 and 0 where it has none.
#[derive(Clone, Copy, Debug, PartialEq, Eq)]
pub struct Told {
    // The format's own number for the denial, made from the enum by `told`; 0 and 0 are its words for no place.
    pub number: u8,
    pub layer: Layer,
    pub record: usize,
    pub column: usize,
}

impl RecordFault {
    /// What the fault tells by itself, as when a later denial carries it.
    pub fn told(&self) -> Told
        ensures { result ≡ told_at self.now.«record» self.now.fault }
    {
        let record = self.record;
        match self.fault {
            Fault::OutOfOrder => tells(13, Layer::Order, record, 1),
            Fault::WrongByte { column } => tells(14, Layer::Record, record, column),
            Fault::WrongValue { column } => tells(15, Layer::Record, record, column),
            Fault::WrongCount => tells(16, Layer::Totals, record, 2),
            Fault::WrongAmount => tells(17, Layer::Totals, record, 8),
        }
    }
}

impl RunDenial {
    pub fn told(&self) -> Told
        ensures { result ≡ told_in_run self.now }
    {
        match self {
            RunDenial::OtherSort { record } => tells(22, Layer::Run, *record, 1),
            _ => tells(23, Layer::Run, 0, 0),
        }
    }

    /// What the fault that is carried tells, if there is one.
    pub fn carried(&self) -> Option<Told>
        ensures { result ≡ carried self.now }
    {
        match self {
            RunDenial::Broken(fault) => Some(fault.told()),
            _ => None,
        }
    }
}

impl Denial {
    pub fn told(&self) -> Told
        ensures { result ≡ told self.now }
    {
        match self {
            Denial::BareLength => tells(11, Layer::Carrier, 0, 0),
            Denial::TooManyRecords => tells(12, Layer::Carrier, 0, 0),
            Denial::RawTooLong => tells(18, Layer::Carrier, 0, 0),
            Denial::Faulty(fault) => fault.told(),
            Denial::ShortBuffer => tells(21, Layer::Carrier, 0, 0),
            Denial::Run(denial) => denial.told(),
            Denial::OutsideWidth => tells(24, Layer::Number, 0, 0),
            Denial::RegisterFull => tells(31, Layer::Register, 0, 0),
            Denial::AlreadyListed => tells(32, Layer::Register, 0, 0),
            Denial::NotListed => tells(33, Layer::Register, 0, 0),
            Denial::MalformedLine { line } => tells(41, Layer::Accounts, *line, 0),
            Denial::AccountsTooLong => tells(42, Layer::Accounts, 0, 0),
        }
    }
}

/// The four things that the denial tells: `31 register 0 0`.
impl fmt::Display for Denial {
    ghost use Rattle.std.specs.Prelude.{Some};
    ghost use Rattle.denials.specs.Printed.{denial_text};

    ghost output = { λ denial. Some (denial_text denial) };

    fn fmt<W: fmt::Write>(&self, f: &mut fmt::Formatter<W>) -> fmt::Result {
        let told = self.told();
        write!(
            f,
            "{} {} {} {}",
            told.number, told.layer, told.record, told.column
        )
    }
}

impl Error for Denial {}

fn tells(number: u8, layer: Layer, record: usize, column: usize) -> Told
    ensures { result ≡ tells number layer «record» column }
{
    Told {
        number,
        layer,
        record,
        column,
    }
}
