// The rows of the registers: what each row is known by, and the widths of its numbers.
ghost use Rattle.std.specs.Prelude.{◌≡◌, Bool};
ghost use Rattle.tables.specs.Rows.{same_account, wide_account, same_customer, wide_customer, same_biller, wide_biller, wide_ceiling, account_row, customer_row};

use claims::terms::{FIFTEEN_DIGITS, TEN_DIGITS, Terms};

/// A row of a register.
pub trait Row {
    /// The two are known by the same parts.
    ghost same: { Self → Self → Bool };

    /// The parts that the row is known by keep their widths.
    ghost wide_key: { Self → Bool };

    /// All its numbers keep their widths.
    ghost wide: { Self → Bool };

    fn is_same(&self, other: &Self) -> bool
        ensures { result ≡ same self.now other.now };

    fn is_wide_key(&self) -> bool
        ensures { result ≡ wide_key self.now };

    fn is_wide(&self) -> bool
        ensures { result ≡ wide self.now };
}

/// A biller and an account: in a holder's stop, and in mandates.
#[derive(Clone, Copy, Debug, PartialEq, Eq)]
pub struct AccountRow {
    pub biller: u64,
    pub account: u64,
}

/// A biller and a customer number in two halves: in a biller's stop.
#[derive(Clone, Copy, Debug, PartialEq, Eq)]
pub struct CustomerRow {
    pub biller: u64,
    pub high: u64,
    pub low: u64,
}

/// A biller and the amount left to it: in a register of ceilings, where the biller code alone makes a row known.
#[derive(Clone, Copy, Debug, PartialEq, Eq)]
pub struct CeilingRow {
    pub biller: u64,
    pub left: u64,
}

impl Row for AccountRow {
    ghost same = { same_account };

    ghost wide_key = { wide_account };

    ghost wide = { wide_account };

    fn is_same(&self, other: &AccountRow) -> bool {
        self == other
    }

    fn is_wide_key(&self) -> bool {
        self.biller <= TEN_DIGITS && self.account <= FIFTEEN_DIGITS
    }

    fn is_wide(&self) -> bool {
        self.is_wide_key()
    }
}

impl Row for CustomerRow {
    ghost same = { same_customer };

    ghost wide_key = { wide_customer };

    ghost wide = { wide_customer };

    fn is_same(&self, other: &CustomerRow) -> bool {
        self == other
    }

    fn is_wide_key(&self) -> bool {
        self.biller <= TEN_DIGITS && self.high <= TEN_DIGITS && self.low <= TEN_DIGITS
    }

    fn is_wide(&self) -> bool {
        self.is_wide_key()
    }
}

impl Row for CeilingRow {
    ghost same = { same_biller };

    ghost wide_key = { wide_biller };

    ghost wide = { wide_ceiling };

    // One part of two makes a ceiling known, so this is no equality.
    fn is_same(&self, other: &CeilingRow) -> bool {
        self.biller == other.biller
    }

    fn is_wide_key(&self) -> bool {
        self.biller <= TEN_DIGITS
    }

    fn is_wide(&self) -> bool {
        self.is_wide_key() && self.left <= FIFTEEN_DIGITS
    }
}

/// The row that a claim with these terms would be listed under by its account.
impl From<Terms> for AccountRow {
    ghost from_gives = { λ t r. r ≡ account_row t };

    fn from(terms: Terms) -> AccountRow {
        AccountRow {
            biller: terms.biller,
            account: terms.account,
        }
    }
}

/// The row that a claim with these terms would be listed under by its customer number.
impl From<Terms> for CustomerRow {
    ghost from_gives = { λ t r. r ≡ customer_row t };

    fn from(terms: Terms) -> CustomerRow {
        CustomerRow {
            biller: terms.biller,
            high: terms.high,
            low: terms.low,
        }
    }
}
