// Lines of a script: what prints nothing, what is a command, and what is a bad line.
use afternoon::commands::{Command, Sort};
use afternoon::staff::Entry;
use books::Bottom;
use claims::terms::Terms;
use hosts::ledger::LedgerRow;
use hosts::sheet::SheetRow;
use std::error::Error;
use std::fmt;

/// The most digits that a number has.
const MOST_DIGITS: usize = 20;

/// A line of no form of command: it changes nothing.
#[derive(Clone, Copy, Debug, PartialEq, Eq)]
pub struct BadLine;

impl fmt::Display for BadLine {
    ghost use Rattle.std.specs.Prelude.{Some, codes};

    ghost output = { λ _. Some (codes "BAD LINE") };

    fn fmt<W: fmt::Write>(&self, f: &mut fmt::Formatter<W>) -> fmt::Result {
        f.write_str("BAD LINE")
    }
}

impl Error for BadLine {}

/// The command in a line; none in a blank line or a remark, which print nothing.
pub fn read_line(line: &[u8]) -> Result<Option<Command>, BadLine> {
    match line {
        [] | [b'#', ..] => Ok(None),
        _ => read_command(line).map(Some).ok_or(BadLine),
    }
}

fn read_command(line: &[u8]) -> Option<Command> {
    match line {
        b"use ledger" => Some(Command::Use(Bottom::Ledger)),
        b"use sheet" => Some(Command::Use(Bottom::Sheet)),
        b"put holder" => Some(Command::Put(Sort::Holder)),
        b"put biller" => Some(Command::Put(Sort::Biller)),
        b"put mandates" => Some(Command::Put(Sort::Mandates)),
        b"put ceiling" => Some(Command::Put(Sort::Ceiling)),
        b"off" => Some(Command::Off),
        _ => {
            let space = line.iter().position(|byte| *byte == b' ')?;
            command_with(&line[..space], &line[space + 1..])
        }
    }
}

// A command by its word and the numbers after it.
fn command_with(word: &[u8], fields: &[u8]) -> Option<Command> {
    match word {
        b"ledger" => Some(Command::Ledger(ledger_row(numbers(fields)?))),
        b"sheet" => Some(Command::Sheet(sheet_row(numbers(fields)?)?)),
        // A biller code alone strikes a ceiling off, and lists nothing.
        b"list" => match numbered_entry(fields)? {
            (_, Entry::One(_)) => None,
            (number, entry) => Some(Command::List { number, entry }),
        },
        b"strike" => {
            let (number, entry) = numbered_entry(fields)?;
            Some(Command::Strike { number, entry })
        }
        b"inquire" => Some(Command::Inquire(terms(numbers(fields)?))),
        b"debit" => Some(Command::Debit(terms(numbers(fields)?))),
        b"taken" => {
            let [account] = numbers::<1>(fields)?;
            Some(Command::Taken { account })
        }
        _ => None,
    }
}

// This and what follows are functions and no `From`, since numbers and rows are both types of other crates.
fn terms([biller, account, high, low, amount]: [u64; 5]) -> Terms {
    Terms {
        biller,
        account,
        high,
        low,
        amount,
    }
}

// A ledger row from which nothing has been taken yet.
fn ledger_row([account, balance]: [u64; 2]) -> LedgerRow {
    LedgerRow {
        account,
        balance,
        taken: 0,
    }
}

// A sheet row that is not spent yet, if its code is a byte.
fn sheet_row([biller, account, high, low, amount, code]: [u64; 6]) -> Option<SheetRow> {
    Some(SheetRow {
        terms: terms([biller, account, high, low, amount]),
        code: u8::try_from(code).ok()?,
        spent: false,
    })
}

// The number of a register, and the one, two or three numbers that stand for a row. Each is read once: only how many there are tells
// which row is meant.
fn numbered_entry(fields: &[u8]) -> Option<(u64, Entry)> {
    let mut numbers = fields.split(|byte| *byte == b' ').map(read_number);
    let number = numbers.next()??;
    let biller = numbers.next()??;
    let entry = match (numbers.next(), numbers.next(), numbers.next()) {
        (None, _, _) => Entry::One(biller),
        (Some(second), None, _) => Entry::Two(biller, second?),
        (Some(high), Some(low), None) => Entry::Three(biller, high?, low?),
        _ => return None,
    };
    Some((number, entry))
}

// Just so many numbers, separated by single spaces.
fn numbers<const N: usize>(fields: &[u8]) -> Option<[u64; N]> {
    let mut numbers = [0; N];
    let mut pieces = fields.split(|byte| *byte == b' ');
    for number in numbers.iter_mut() {
        *number = read_number(pieces.next()?)?;
    }
    match pieces.next() {
        Some(_) => None,
        None => Some(numbers),
    }
}

// 1 to 20 digits that spell a number below 2^64. No `parse`, which takes a sign and any number of zeros.
fn read_number(digits: &[u8]) -> Option<u64> {
    if digits.is_empty() || digits.len() > MOST_DIGITS {
        return None;
    }
    let mut number: u64 = 0;
    for byte in digits {
        if !byte.is_ascii_digit() {
            return None;
        }
        number = number
            .checked_mul(10)?
            .checked_add(u64::from(*byte - b'0'))?;
    }
    Some(number)
}
