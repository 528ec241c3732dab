// The commands of a script, and the answers to them.
ghost use Rattle.std.specs.Prelude.{◌≡◌};
ghost use Rattle.afternoon.specs.Told.{change_told, code_told};

use crate::staff::Entry;
use books::Bottom;
use claims::codes::ResultCode;
use claims::terms::Terms;
use denials::Denial;
use hosts::ledger::LedgerRow;
use hosts::sheet::SheetRow;
use std::fmt;

/// The four sorts of register.
#[derive(Clone, Copy, Debug, PartialEq, Eq)]
pub enum Sort {
    Holder,
    Biller,
    Mandates,
    Ceiling,
}

#[derive(Clone, Copy)]
pub enum Command {
    /// Adds a ledger row.
    Ledger(LedgerRow),
    /// Adds a sheet row.
    Sheet(SheetRow),
    /// Makes the ledger or the sheet the bottom host.
    Use(Bottom),
    /// Puts a new empty register on top.
    Put(Sort),
    /// Takes the uppermost register away.
    Off,
    /// Lists a row in the register of that number, counted from 1 at the bottom.
    List { number: u64, entry: Entry },
    /// Strikes a row off the register of that number.
    Strike { number: u64, entry: Entry },
    Inquire(Terms),
    Debit(Terms),
    Taken { account: u64 },
}

#[derive(Clone, Copy, Debug, PartialEq, Eq)]
pub enum Answer {
    Done,
    /// There is no such register, or the numbers do not fit its sort.
    Absent,
    /// The number of the register that was put on top.
    Register(usize),
    Code(ResultCode),
    Taken(u64),
    Denied(Denial),
}

/// The answer to staff who changed a register, where there is one that the row fits.
impl From<Option<Result<(), Denial>>> for Answer {
    ghost from_gives = { λ x r. r ≡ change_told x };

    fn from(change: Option<Result<(), Denial>>) -> Answer {
        match change {
            None => Answer::Absent,
            Some(Ok(())) => Answer::Done,
            Some(Err(denial)) => Answer::Denied(denial),
        }
    }
}

/// The answer to an inquiry or a debit.
impl From<Result<ResultCode, Denial>> for Answer {
    ghost from_gives = { λ x r. r ≡ code_told x };

    fn from(said: Result<ResultCode, Denial>) -> Answer {
        match said {
            Ok(code) => Answer::Code(code),
            Err(denial) => Answer::Denied(denial),
        }
    }
}

impl fmt::Display for Answer {
    ghost use Rattle.std.specs.Prelude.{Some};
    ghost use Rattle.afternoon.specs.Printed.{answer_text};

    ghost output = { λ answer. Some (answer_text answer) };

    fn fmt<W: fmt::Write>(&self, f: &mut fmt::Formatter<W>) -> fmt::Result {
        match self {
            Answer::Done => f.write_str("OK"),
            Answer::Absent => f.write_str("NONE"),
            Answer::Register(number) => write!(f, "REGISTER {number}"),
            Answer::Code(code) => write!(f, "CODE {code}"),
            Answer::Taken(figure) => write!(f, "TAKEN {figure}"),
            Answer::Denied(denial) => write!(f, "DENIED {denial}"),
        }
    }
}
