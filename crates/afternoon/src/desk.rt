// The state that replay holds, one pile above a ledger and a sheet, and what each command does to it.
// The steps take the pile apart where a part of it is changed, and pile it again.
ghost use Rattle.std.specs.Prelude.{◌≡◌, ℕ, ◌<◌, length, IfSome, is_ok, IsOk, IfOk, if◌then◌else◌, vec_len, vec_capacity};
ghost use Rattle.std.specs.Fn.{FnOnceReturnsAtMut};
ghost use Rattle.registers.specs.Listings.{Listing, listing};
ghost use Rattle.registers.specs.Piles.{listings};
ghost use Rattle.afternoon.specs.Desk.{standing, empty_desk, added_to_ledger, added_to_sheet, used_bottom, empty_of, put_on, taken_off, any_register, place_of, registers_changed, change_answer, changed_at, asked, debited, figure_of};
ghost use Rattle.afternoon.specs.Staff.{Changed, Means, list_in, strike_in};

use crate::commands::Sort;
use crate::staff::{Entry, list_in, strike_in};
use books::{Books, Bottom};
use claims::claim::Claim;
use claims::codes::ResultCode;
use claims::terms::Terms;
use denials::Denial;
use hosts::host::Host;
use hosts::ledger::LedgerRow;
use hosts::sheet::SheetRow;
use registers::pile::Pile;
use registers::register::Register;
use std::alloc::{AllocError, Global};
use tables::table::Table;

#[derive(Drop)]
pub struct Desk {
    pile: Pile<Books>,
}

// A new register without rows.
fn empty_register(heap: Global, sort: Sort) -> Result<Register, AllocError>
    ensures { IfOk result (λ x. listing x ≡ empty_of sort) }
{
    match sort {
        Sort::Holder => Ok(Register::HolderStop(Table::new(heap)?)),
        Sort::Biller => Ok(Register::BillerStop(Table::new(heap)?)),
        Sort::Mandates => Ok(Register::Mandates(Table::new(heap)?)),
        Sort::Ceiling => Ok(Register::Ceiling(Table::new(heap)?)),
    }
}

// The place in a pile, uppermost first, of the register of a number, counted from 1 at the bottom.
fn place_of(registers: usize, number: u64) -> Option<usize>
    ensures value { result ≡ place_of registers number }
    ensures within { IfSome result (λ i. i < registers) }
{
    let number = usize::try_from(number).ok()?;
    registers.checked_sub(number).filter(|i| *i < registers)
}

// Changes the register of that number; `meaning` is what the change makes of a register.
fn change_at<F: FnOnce(&mut Register) -> Option<Result<(), Denial>>>(
    registers: &mut [Register],
    number: u64,
    change: F,
) -> Option<Result<(), Denial>>
    ghost meaning: { Listing → Changed }
    requires callable { F.IsAlwaysCallable change }
    requires means { (x : _) (r : _) (y : _) → FnOnceReturnsAtMut F.FnOnce change x r y → Means meaning x r y }
    ensures rows { listings registers.new ≡ registers_changed meaning number (listings registers.old) }
    ensures answer { result ≡ change_answer meaning number (listings registers.old) }
{
    let i = place_of(registers.len(), number)?;
    change(&mut registers[i])
}

impl Desk {
    /// No rows, the ledger in use, and no registers.
    pub fn new(heap: Global) -> Desk
        ensures { standing result ≡ empty_desk }
    {
        Desk {
            pile: Pile::new(heap, Books::new(heap)),
        }
    }

    // Adding to the ledger and adding to the sheet stay two functions: they share no line but the taking apart and the piling again.
    // One over both sorts of row would want a trait of rows with an impl for each, and one that takes a closure two clauses more.

    /// Adds a ledger row.
    pub fn add_to_ledger(self, row: LedgerRow) -> Result<Desk, AllocError>
        ensures desk { IfOk result (λ d. standing d ≡ added_to_ledger row (standing self)) }
        ensures succeeds { vec_len self.pile.below.ledger.rows < vec_capacity self.pile.below.ledger.rows → IsOk result }
    {
        let (registers, mut books) = self.pile.take_apart();
        books.add_ledger_row(row)?;
        Ok(Desk {
            pile: Pile::pile(registers, books),
        })
    }

    /// Adds a sheet row.
    pub fn add_to_sheet(self, row: SheetRow) -> Result<Desk, AllocError>
        ensures desk { IfOk result (λ d. standing d ≡ added_to_sheet row (standing self)) }
        ensures succeeds { vec_len self.pile.below.sheet.rows < vec_capacity self.pile.below.sheet.rows → IsOk result }
    {
        let (registers, mut books) = self.pile.take_apart();
        books.add_sheet_row(row)?;
        Ok(Desk {
            pile: Pile::pile(registers, books),
        })
    }

    /// Makes the ledger or the sheet the bottom host.
    pub fn take_into_use(self, bottom: Bottom) -> Desk
        ensures { standing result ≡ used_bottom bottom (standing self) }
    {
        let (registers, mut books) = self.pile.take_apart();
        books.take_into_use(bottom);
        Desk {
            pile: Pile::pile(registers, books),
        }
    }

    /// Puts a new empty register on top, and tells how many there are then.
    pub fn put(&mut self, heap: Global, sort: Sort) -> Result<usize, AllocError>
        ensures desk { standing self.new ≡ (if is_ok result then put_on sort (standing self.old) else standing self.old) }
        ensures number { IfOk result (λ n. n ≡ length (standing self.new).registers) }
    {
        let register = empty_register(heap, sort)?;
        self.pile.put(register)?;
        Ok(self.pile.registers().len())
    }

    /// Takes the uppermost register away, if there is one.
    pub fn take_off(&mut self) -> bool
        ensures desk { standing self.new ≡ taken_off (standing self.old) }
        ensures answer { result ≡ any_register (standing self.old) }
    {
        self.pile.take_off().is_some()
    }

    // The same in the pile. That no taken figure moves is a fact about two states, so it is said here and of the two public calls.
    fn change<F: FnOnce(&mut Register) -> Option<Result<(), Denial>>>(
        self,
        number: u64,
        change: F,
    ) -> (Desk, Option<Result<(), Denial>>)
        ghost meaning: { Listing → Changed }
        requires callable { F.IsAlwaysCallable change }
        requires means { (x : _) (r : _) (y : _) → FnOnceReturnsAtMut F.FnOnce change x r y → Means meaning x r y }
        ensures desk { standing result.0 ≡ changed_at meaning number (standing self) }
        ensures answer { result.1 ≡ change_answer meaning number (standing self).registers }
        ensures taken { (account : ℕ) → figure_of account (standing result.0) ≡ figure_of account (standing self) }
    {
        let (mut registers, books) = self.pile.take_apart();
        let answer = change_at(registers.as_mut_slice(), number, change);
        let pile = Pile::pile(registers, books);
        (Desk { pile }, answer)
    }

    /// Lists a row in the register of that number.
    pub fn list(self, number: u64, entry: Entry) -> (Desk, Option<Result<(), Denial>>)
        ensures desk { standing result.0 ≡ changed_at (λ l. list_in l entry) number (standing self) }
        ensures answer { result.1 ≡ change_answer (λ l. list_in l entry) number (standing self).registers }
        ensures taken { (account : ℕ) → figure_of account (standing result.0) ≡ figure_of account (standing self) }
    {
        self.change(number, |register| list_in(register, entry))
    }

    /// Strikes a row off the register of that number.
    pub fn strike(self, number: u64, entry: Entry) -> (Desk, Option<Result<(), Denial>>)
        ensures desk { standing result.0 ≡ changed_at (λ l. strike_in l entry) number (standing self) }
        ensures answer { result.1 ≡ change_answer (λ l. strike_in l entry) number (standing self).registers }
        ensures taken { (account : ℕ) → figure_of account (standing result.0) ≡ figure_of account (standing self) }
    {
        self.change(number, |register| strike_in(register, entry))
    }

    /// Tells the pile's verdict on a claim with these terms.
    pub fn inquire(&self, terms: Terms) -> Result<ResultCode, Denial>
        ensures { result ≡ asked terms (standing self.now) }
    {
        let claim = Claim::try_from(terms)?;
        Ok(self.pile.inquire(&claim))
    }

    /// Debits the pile once with a claim of these terms.
    pub fn debit(&mut self, terms: Terms) -> Result<ResultCode, Denial>
        ensures answer { result ≡ asked terms (standing self.old) }
        ensures desk { standing self.new ≡ debited terms (standing self.old) }
    {
        let claim = Claim::try_from(terms)?;
        Ok(self.pile.debit(&claim))
    }

    /// Tells the taken figure of an account.
    pub fn taken(&self, account: u64) -> u64
        ensures { result ≡ figure_of account (standing self.now) }
    {
        self.pile.tell_taken(account)
    }
}
