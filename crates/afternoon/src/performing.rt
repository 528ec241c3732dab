// A command performed: what the desk holds afterwards, and the answer.
ghost use Rattle.std.specs.Prelude.{◌≡◌, false, IsOk, IfOk};
ghost use Rattle.afternoon.specs.Desk.{standing};
ghost use Rattle.afternoon.specs.Performed.{needs_memory, performed, off_told, answer_to};

use crate::commands::{Answer, Command};
use crate::desk::Desk;
use std::alloc::{AllocError, Global};

// A function and no `From<bool>`, which would hide which way round it is.
fn off_told(any: bool) -> Answer
    ensures { result ≡ off_told any }
{
    if any { Answer::Done } else { Answer::Absent }
}

/// Performs one command. Only a row or a register that is added can want memory.
pub fn perform(desk: Desk, heap: Global, command: Command) -> Result<(Desk, Answer), AllocError>
    ensures done { IfOk result (λ p. (standing p.0 ≡ performed (standing desk) command) × (p.1 ≡ answer_to (standing desk) command)) }
    ensures memory { needs_memory command ≡ false → IsOk result }
{
    let mut desk = desk;
    match command {
        Command::Ledger(row) => Ok((desk.add_to_ledger(row)?, Answer::Done)),
        Command::Sheet(row) => Ok((desk.add_to_sheet(row)?, Answer::Done)),
        Command::Use(bottom) => Ok((desk.take_into_use(bottom), Answer::Done)),
        Command::Put(sort) => {
            let number = desk.put(heap, sort)?;
            Ok((desk, Answer::Register(number)))
        }
        Command::Off => {
            let answer = off_told(desk.take_off());
            Ok((desk, answer))
        }
        Command::List { number, entry } => {
            let (desk, answer) = desk.list(number, entry);
            Ok((desk, answer.into()))
        }
        Command::Strike { number, entry } => {
            let (desk, answer) = desk.strike(number, entry);
            Ok((desk, answer.into()))
        }
        Command::Inquire(terms) => {
            let answer = desk.inquire(terms).into();
            Ok((desk, answer))
        }
        Command::Debit(terms) => {
            let answer = desk.debit(terms).into();
            Ok((desk, answer))
        }
        Command::Taken { account } => {
            let answer = Answer::Taken(desk.taken(account));
            Ok((desk, answer))
        }
    }
}
