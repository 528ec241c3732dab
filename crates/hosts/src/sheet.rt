// The sheet: a host that answers from rows written beforehand. The first unspent row equal to the claim answers, and settling spends it.
ghost use Rattle.std.specs.Prelude.{◌≡◌, ◌<◌, ◌^◌, [], length, sum_by, IfSome};
ghost use Rattle.std.specs.List.{position_from};
ghost use Rattle.hosts.specs.Layers.{read_laws};
ghost use Rattle.hosts.specs.Sheets.{counted, answers, row_code, figure, spend, sheet_verdict, sheet_taken, sheet_after};
ghost use Rattle.hosts.specs.SheetsLemmas.{sheet_laws};

use crate::book::Book;
use crate::host::Host;
use claims::claim::Claim;
use claims::codes::ResultCode;
use claims::terms::{TEN_DIGITS, Terms};

/// How many rows of a sheet count.
pub const ROWS_THAT_COUNT: usize = 100_000;

#[derive(Clone, Copy)]
pub struct SheetRow {
    pub terms: Terms,
    /// The number of a result code; one that is none of the seven stands for other, so this is no `ResultCode`.
    pub code: u8,
    pub spent: bool,
}

pub type Sheet = Book<SheetRow>;

impl SheetRow {
    fn result(&self) -> ResultCode
        ensures { result ≡ row_code self.now }
    {
        ResultCode::try_from(self.code).unwrap_or(ResultCode::Other)
    }

    fn is_answer(&self, terms: Terms) -> bool
        ensures { result ≡ answers terms self.now }
    {
        !self.spent && self.terms == terms
    }

    // What the row adds to the figure of an account.
    fn taken(&self, account: u64) -> u64
        ensures { result ≡ figure account self.now }
    {
        let counts = self.spent
            && self.terms.account == account
            && self.code == 0
            && (1..=TEN_DIGITS).contains(&self.terms.amount);
        if counts { self.terms.amount } else { 0 }
    }

    fn spend(&mut self)
        ensures { self.new ≡ spend self.old }
    {
        self.spent = true;
    }
}

// What rows whose sum fits add to the figure of an account.
fn figure_of(rows: &[SheetRow], account: u64) -> u64
    requires { sum_by (figure account) rows.now < 2 ^ 64 }
    ensures { result ≡ sum_by (figure account) rows.now }
{
    rows.iter().map(|row| row.taken(account)).sum()
}

impl Sheet {
    // A slice and no `take`, since of a sum after `take` the prover does not know that it fits.
    fn counted(&self) -> &[SheetRow]
        ensures { result.now ≡ counted self.now.rows.items }
    {
        let n = ROWS_THAT_COUNT.min(self.rows.len());
        &self.rows[..n]
    }

    // Where the row that answers stands.
    fn position(&self, terms: Terms) -> Option<usize>
        ensures value { result ≡ position_from (answers terms) 0 (counted self.now.rows.items) }
        ensures within { IfSome result (λ i. i < length (counted self.now.rows.items)) }
    {
        self.counted().iter().position(|row| row.is_answer(terms))
    }
}

impl Host for Sheet {
    ghost verdict = { λ s. sheet_verdict s.rows.items };

    ghost taken = { λ s. sheet_taken s.rows.items };

    ghost debits = { λ s c t. t.rows.items ≡ sheet_after s.rows.items c };

    ghost registers = { λ _. [] };

    ghost bottom_verdict = { λ s. sheet_verdict s.rows.items };

    ghost laws = { read_laws sheet_laws (λ s. s.rows.items) };

    // The row is read and lent by its place: `find` with `map_or` was tried, and the proof did not close; a debit needs the place anyway.
    // The ledger's calls go the same way by another key, another answer and another change; a trait of rows for both would be longer.
    fn inquire(&self, claim: &Claim) -> ResultCode {
        let Some(i) = self.position(claim.terms()) else {
            return ResultCode::Other;
        };
        self.rows[i].result()
    }

    fn tell_taken(&self, account: u64) -> u64 {
        figure_of(self.counted(), account)
    }

    fn debit(&mut self, claim: &Claim) -> ResultCode {
        let Some(i) = self.position(claim.terms()) else {
            return ResultCode::Other;
        };
        let row = &mut self.rows[i];
        let code = row.result();
        if code == ResultCode::Settled {
            row.spend();
        }
        code
    }
}
