// Register staff at work: a row given by plain numbers is listed in a register of any sort, or struck off.
ghost use Rattle.std.specs.Prelude.{◌≡◌};
ghost use Rattle.registers.specs.Listings.{listing};
ghost use Rattle.afternoon.specs.Staff.{account_in, customer_in, ceiling_in, ceiling_key_in, list_in, strike_in, answer_of, afterwards};

use denials::Denial;
use registers::register::Register;
use tables::rows::{AccountRow, CeilingRow, CustomerRow};

/// The numbers given for a row, biller code first.
#[derive(Clone, Copy, Debug, PartialEq, Eq)]
pub enum Entry {
    /// A biller code alone: it strikes a ceiling off.
    One(u64),
    /// A biller code with an account, or with the amount left to it.
    Two(u64, u64),
    /// A biller code with the two halves of a customer number.
    Three(u64, u64, u64),
}

// Methods and not `TryFrom`: a ceiling is listed by two numbers and struck off by one, and a misfit has nothing to tell.
impl Entry {
    fn account_row(self) -> Option<AccountRow>
        ensures { result ≡ account_in self }
    {
        match self {
            Entry::Two(biller, account) => Some(AccountRow { biller, account }),
            _ => None,
        }
    }

    fn customer_row(self) -> Option<CustomerRow>
        ensures { result ≡ customer_in self }
    {
        match self {
            Entry::Three(biller, high, low) => Some(CustomerRow { biller, high, low }),
            _ => None,
        }
    }

    fn ceiling_row(self) -> Option<CeilingRow>
        ensures { result ≡ ceiling_in self }
    {
        match self {
            Entry::Two(biller, left) => Some(CeilingRow { biller, left }),
            _ => None,
        }
    }

    // What strikes a ceiling off: its biller code alone.
    fn ceiling_key(self) -> Option<CeilingRow>
        ensures { result ≡ ceiling_key_in self }
    {
        match self {
            Entry::One(biller) => Some(CeilingRow { biller, left: 0 }),
            _ => None,
        }
    }
}

// Listing and striking stay two functions: each calls one method of tables of three sorts of row. No closure can stand for three, and
// a trait with one generic method and two impls would be longer.

/// Lists a row; none where the numbers do not fit the register's sort.
pub fn list_in(register: &mut Register, entry: Entry) -> Option<Result<(), Denial>>
    ensures answer { result ≡ answer_of (list_in (listing register.old) entry) }
    ensures rows { listing register.new ≡ afterwards (listing register.old) (list_in (listing register.old) entry) }
{
    match register {
        Register::HolderStop(table) => Some(table.list(entry.account_row()?)),
        Register::BillerStop(table) => Some(table.list(entry.customer_row()?)),
        Register::Mandates(table) => Some(table.list(entry.account_row()?)),
        Register::Ceiling(table) => Some(table.list(entry.ceiling_row()?)),
    }
}

/// Strikes a row off; none where the numbers do not fit the register's sort.
pub fn strike_in(register: &mut Register, entry: Entry) -> Option<Result<(), Denial>>
    ensures answer { result ≡ answer_of (strike_in (listing register.old) entry) }
    ensures rows { listing register.new ≡ afterwards (listing register.old) (strike_in (listing register.old) entry) }
{
    match register {
        Register::HolderStop(table) => Some(table.strike(&entry.account_row()?)),
        Register::BillerStop(table) => Some(table.strike(&entry.customer_row()?)),
        Register::Mandates(table) => Some(table.strike(&entry.account_row()?)),
        Register::Ceiling(table) => Some(table.strike(&entry.ceiling_key()?)),
    }
}
