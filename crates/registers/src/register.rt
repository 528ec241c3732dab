// One register of any of the four sorts: its objection to a claim, and the fall of a ceiling.
ghost use Rattle.std.specs.Prelude.{◌≡◌, [], ◌∷◌};
ghost use Rattle.registers.specs.Listings.{listing, objects, fall};

use crate::layered::Layer;
use claims::codes::ResultCode;
use claims::terms::Terms;
use tables::rows::{AccountRow, CeilingRow, CustomerRow};
use tables::table::Table;

#[derive(Drop)]
pub enum Register {
    /// Objects to billers that an account's holder has stopped.
    HolderStop(Table<AccountRow>),
    /// Objects to customers that a biller has stopped.
    BillerStop(Table<CustomerRow>),
    /// Objects where the account has given the biller no mandate.
    Mandates(Table<AccountRow>),
    /// Objects to an amount above what is left to the biller.
    Ceiling(Table<CeilingRow>),
}

impl Register {
    /// The code with which the register objects to a claim with these terms, if it does.
    pub fn objection(&self, terms: Terms) -> Option<ResultCode>
        ensures { result ≡ objects (listing self.now) terms }
    {
        match self {
            Register::HolderStop(table) => {
                let listed = table.contains(&AccountRow::from(terms));
                listed.then_some(ResultCode::StoppedByHolder)
            }
            Register::BillerStop(table) => {
                let listed = table.contains(&CustomerRow::from(terms));
                listed.then_some(ResultCode::StoppedByBiller)
            }
            Register::Mandates(table) => {
                let listed = table.contains(&AccountRow::from(terms));
                (!listed).then_some(ResultCode::NoMandate)
            }
            Register::Ceiling(table) => {
                let left = table.left_to(terms.biller)?;
                (left < terms.amount).then_some(ResultCode::Other)
            }
        }
    }

    // The claim was settled below: a ceiling falls.
    pub(crate) fn lower(&mut self, terms: Terms)
        ensures { listing self.new ≡ fall terms (listing self.old) }
    {
        if let Register::Ceiling(table) = self {
            table.lower(terms.biller, terms.amount);
        }
    }
}

/// One register by itself. Its own two calls stand above, since their clauses speak of one register and not of a list.
impl Layer for Register {
    ghost held = { λ r. listing r ∷ [] };

    fn objection(&self, terms: Terms) -> Option<ResultCode> {
        Register::objection(self, terms)
    }

    fn lower(&mut self, terms: Terms) {
        Register::lower(self, terms)
    }
}
