// A ledger and a sheet side by side, of which one is in use as the bottom host. The other keeps its rows meanwhile.
#![tactic(auto)]

ghost use Rattle.std.specs.Prelude.{◌≡◌, ◌<◌, [], is_ok, IsOk, IfErr, if◌then◌else◌, vec_len, vec_capacity};
ghost use Rattle.hosts.specs.Layers.{read_laws};
ghost use Rattle.books.specs.Books.{rows_of, no_rows, with_ledger_row, with_sheet_row, with_bottom, books_verdict, books_taken, books_after};
ghost use Rattle.books.specs.Booking.{books_laws};

use claims::claim::Claim;
use claims::codes::ResultCode;
use hosts::host::Host;
use hosts::ledger::{Ledger, LedgerRow};
use hosts::sheet::{Sheet, SheetRow};
use std::alloc::{AllocFailed, Global};

/// Which of the two is in use.
#[derive(Clone, Copy)]
pub enum Bottom {
    Ledger,
    Sheet,
}

#[derive(Drop)]
pub struct Books {
    ledger: Ledger,
    sheet: Sheet,
    in_use: Bottom,
}

impl Books {
    /// No rows, and the ledger in use.
    pub fn new(heap: Global) -> Books
        ensures { rows_of result ≡ no_rows }
    {
        Books {
            ledger: Ledger::new(heap),
            sheet: Sheet::new(heap),
            in_use: Bottom::Ledger,
        }
    }

    // Two methods of one line: a trait that finds the book by the sort of row is longer than both.
    pub fn add_ledger_row(&mut self, row: LedgerRow) -> Result<(), AllocFailed<LedgerRow>>
        ensures rows { rows_of self.new ≡ (if is_ok result then with_ledger_row row (rows_of self.old) else rows_of self.old) }
        ensures refused { IfErr result (λ y. y.value ≡ row) }
        ensures succeeds { vec_len self.old.ledger.rows < vec_capacity self.old.ledger.rows → IsOk result }
    {
        self.ledger.add(row)
    }

    pub fn add_sheet_row(&mut self, row: SheetRow) -> Result<(), AllocFailed<SheetRow>>
        ensures rows { rows_of self.new ≡ (if is_ok result then with_sheet_row row (rows_of self.old) else rows_of self.old) }
        ensures refused { IfErr result (λ y. y.value ≡ row) }
        ensures succeeds { vec_len self.old.sheet.rows < vec_capacity self.old.sheet.rows → IsOk result }
    {
        self.sheet.add(row)
    }

    /// Makes one of the two the bottom host.
    pub fn take_into_use(&mut self, bottom: Bottom)
        ensures { rows_of self.new ≡ with_bottom bottom (rows_of self.old) }
    {
        self.in_use = bottom;
    }
}

impl Host for Books {
    ghost verdict = { λ s. books_verdict (rows_of s) };

    ghost taken = { λ s. books_taken (rows_of s) };

    ghost debits = { λ s c t. rows_of t ≡ books_after (rows_of s) c };

    ghost registers = { λ _. [] };

    ghost bottom_verdict = { λ s. books_verdict (rows_of s) };

    ghost laws = { read_laws books_laws rows_of };

    // Each call asks which is in use: the gate refuses a function that hands out the one in use as a `dyn Host`, and one that lends it
    // to a closure would be no plainer than two arms.
    fn inquire(&self, claim: &Claim) -> ResultCode {
        match self.in_use {
            Bottom::Ledger => self.ledger.inquire(claim),
            Bottom::Sheet => self.sheet.inquire(claim),
        }
    }

    fn tell_taken(&self, account: u64) -> u64 {
        match self.in_use {
            Bottom::Ledger => self.ledger.tell_taken(account),
            Bottom::Sheet => self.sheet.tell_taken(account),
        }
    }

    fn debit(&mut self, claim: &Claim) -> ResultCode {
        match self.in_use {
            Bottom::Ledger => self.ledger.debit(claim),
            Bottom::Sheet => self.sheet.debit(claim),
        }
    }
}
