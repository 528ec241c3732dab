// What a claim says: who asks whom for how much.

/// The largest number of ten digits.
pub const TEN_DIGITS: u64 = 9_999_999_999;

/// The largest number of fifteen digits.
pub const FIFTEEN_DIGITS: u64 = 999_999_999_999_999;

/// The parts of a claim as plain numbers, of whatever size.
#[derive(Clone, Copy, Debug, PartialEq, Eq)]
pub struct Terms {
    pub biller: u64,
    /// Bank, branch, deposit type and account number as one number of fifteen digits.
    pub account: u64,
    // The customer number stays two numbers, as files and scripts have it: a struct of the halves would be taken apart at every use.
    /// The first ten digits of the customer number.
    pub high: u64,
    /// Its last ten digits.
    pub low: u64,
    pub amount: u64,
}
