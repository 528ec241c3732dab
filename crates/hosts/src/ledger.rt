// The ledger: a host over rows of account, balance and taken figure. The first row with the account counts.
ghost use Rattle.std.specs.Prelude.{◌≡◌, ◌<◌, ◌≤◌, [], IfSome, vec_len};
ghost use Rattle.std.specs.List.{position_from};
ghost use Rattle.claims.specs.declared.codes.ResultCode.TheVariants.{Settled};
ghost use Rattle.claims.specs.Widths.{ten_digits};
ghost use Rattle.hosts.specs.Layers.{read_laws};
ghost use Rattle.hosts.specs.Ledgers.{of_account, row_verdict, drawn, ledger_verdict, ledger_taken, ledger_after};
ghost use Rattle.hosts.specs.LedgersLemmas.{ledger_laws};

use crate::book::Book;
use crate::host::{FIGURE_LIMIT, Host};
use claims::claim::Claim;
use claims::codes::ResultCode;

#[derive(Clone, Copy)]
pub struct LedgerRow {
    pub account: u64,
    pub balance: u64,
    pub taken: u64,
}

pub type Ledger = Book<LedgerRow>;

impl LedgerRow {
    fn verdict(&self, amount: u64) -> ResultCode
        requires { amount ≤ ten_digits }
        ensures { result ≡ row_verdict amount self.now }
    {
        if self.balance < amount {
            ResultCode::ShortOfFunds
        } else if self.taken > FIGURE_LIMIT - amount {
            ResultCode::Other
        } else {
            ResultCode::Settled
        }
    }

    // Draws an amount that the verdict allows.
    fn draw(&mut self, amount: u64)
        requires { row_verdict amount self.old ≡ Settled }
        ensures { self.new ≡ drawn amount self.old }
    {
        self.balance -= amount;
        self.taken += amount;
    }
}

impl Ledger {
    // Where the first row with the account stands.
    fn position(&self, account: u64) -> Option<usize>
        ensures value { result ≡ position_from (of_account account) 0 self.now.rows.items }
        ensures within { IfSome result (λ i. i < vec_len self.now.rows) }
    {
        // A loop with its index, left at the first match, is the form that the project sets here (docs/DECISIONS.md, "Language forms").
        for (i, row) in self.rows.iter().enumerate() {
            if row.account == account {
                return Some(i);
            }
        }
        None
    }
}

impl Host for Ledger {
    ghost verdict = { λ s. ledger_verdict s.rows.items };

    ghost taken = { λ s. ledger_taken s.rows.items };

    ghost debits = { λ s c t. t.rows.items ≡ ledger_after s.rows.items c };

    ghost registers = { λ _. [] };

    ghost bottom_verdict = { λ s. ledger_verdict s.rows.items };

    ghost laws = { read_laws ledger_laws (λ s. s.rows.items) };

    // `let .. else` for a missing row, and the row then read and lent by its place, are the forms that the project sets for these three
    // (docs/DECISIONS.md, "Language forms").
    fn inquire(&self, claim: &Claim) -> ResultCode {
        let terms = claim.terms();
        let Some(i) = self.position(terms.account) else {
            return ResultCode::NoAccount;
        };
        self.rows[i].verdict(terms.amount)
    }

    fn tell_taken(&self, account: u64) -> u64 {
        let Some(i) = self.position(account) else {
            return 0;
        };
        self.rows[i].taken
    }

    fn debit(&mut self, claim: &Claim) -> ResultCode {
        let terms = claim.terms();
        let Some(i) = self.position(terms.account) else {
            return ResultCode::NoAccount;
        };
        let row = &mut self.rows[i];
        let code = row.verdict(terms.amount);
        if code == ResultCode::Settled {
            row.draw(terms.amount);
        }
        code
    }
}
