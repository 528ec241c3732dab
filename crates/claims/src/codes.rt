// The seven result codes: what each is called, its number, and the digit that stands for it in a record.
ghost use Rattle.std.specs.Prelude.{◌≡◌, ◌+◌};
ghost use Rattle.claims.specs.Codes.{number_of};
ghost use Rattle.claims.specs.Numbers.{Numbered};

use std::error::Error;
use std::fmt;

/// What became of a claim.
#[derive(Clone, Copy, Debug, PartialEq, Eq)]
pub enum ResultCode {
    Settled,
    ShortOfFunds,
    NoAccount,
    StoppedByHolder,
    NoMandate,
    StoppedByBiller,
    Other,
}

/// A number that none of the seven codes has.
#[derive(Clone, Copy, Debug, PartialEq, Eq)]
pub struct UnknownCode(pub u8);

impl ResultCode {
    /// The digit of the code's number, as a record bears it.
    pub fn digit(self) -> u8
        ensures { result ≡ 48 + number_of self }
    {
        b'0' + u8::from(self)
    }
}

/// The code's number.
impl From<ResultCode> for u8 {
    ghost from_gives = { λ code number. number ≡ number_of code };

    fn from(code: ResultCode) -> u8 {
        match code {
            ResultCode::Settled => 0,
            ResultCode::ShortOfFunds => 1,
            ResultCode::NoAccount => 2,
            ResultCode::StoppedByHolder => 3,
            ResultCode::NoMandate => 4,
            ResultCode::StoppedByBiller => 8,
            ResultCode::Other => 9,
        }
    }
}

/// The code of that number, if it is one of the seven.
impl TryFrom<u8> for ResultCode {
    type Error = UnknownCode;

    ghost try_from_gives = { Numbered };

    fn try_from(number: u8) -> Result<ResultCode, UnknownCode> {
        match number {
            0 => Ok(ResultCode::Settled),
            1 => Ok(ResultCode::ShortOfFunds),
            2 => Ok(ResultCode::NoAccount),
            3 => Ok(ResultCode::StoppedByHolder),
            4 => Ok(ResultCode::NoMandate),
            8 => Ok(ResultCode::StoppedByBiller),
            9 => Ok(ResultCode::Other),
            _ => Err(UnknownCode(number)),
        }
    }
}

/// A code is told by its number.
impl fmt::Display for ResultCode {
    ghost use Rattle.std.specs.Prelude.{Some};
    ghost use Rattle.claims.specs.Printed.{code_text};

    ghost output = { λ code. Some (code_text code) };

    fn fmt<W: fmt::Write>(&self, f: &mut fmt::Formatter<W>) -> fmt::Result {
        write!(f, "{}", u8::from(*self))
    }
}

impl fmt::Display for UnknownCode {
    ghost use Rattle.std.specs.Prelude.{Some};
    ghost use Rattle.claims.specs.Printed.{unknown_text};

    ghost output = { λ unknown. Some (unknown_text unknown) };

    fn fmt<W: fmt::Write>(&self, f: &mut fmt::Formatter<W>) -> fmt::Result {
        write!(f, "no result code has the number {}", self.0)
    }
}

impl Error for UnknownCode {}
