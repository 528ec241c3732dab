// Counts and amounts: what a record states, what a group holds so far, and what a file asks for.
ghost use Rattle.std.specs.Prelude.{◌≡◌, ◌^◌, ◌<◌};
ghost use Rattle.zengin.specs.Judged.{noted, with_claim, tallied, Few};

use denials::Fault;
use records::layouts::{DATA_AMOUNT, Sort, TRAILER_AMOUNT, TRAILER_COUNT};

/// A number of data records and the sum of their amounts.
#[derive(Clone, Copy, Debug, Default, PartialEq, Eq)]
pub struct Totals {
    pub count: u64,
    pub amount: u64,
}

/// What a file asks for: its groups, and its data records with the sum of their amounts.
#[derive(Clone, Copy, Debug, Default, PartialEq, Eq)]
pub struct Figures {
    pub groups: u64,
    pub requested: Totals,
}

// The figures of the file so far, and the totals of the group that is open.
#[derive(Clone, Copy, Default)]
pub(crate) struct Tally {
    pub file: Figures,
    pub group: Totals,
}

impl Totals {
    // Keeps what the field of that number states: a data record's amount, a trailer's count and amount.
    pub(crate) fn note(&mut self, sort: Sort, number: usize, value: u64)
        ensures { self.new ≡ noted sort number value self.old }
    {
        match (sort, number) {
            (Sort::Data, DATA_AMOUNT) => self.amount = value,
            (Sort::Trailer, TRAILER_COUNT) => self.count = value,
            (Sort::Trailer, TRAILER_AMOUNT) => self.amount = value,
            _ => {}
        }
    }

    // One data record more.
    fn with_claim(self, amount: u64) -> Totals
        requires count { self.count < 2 ^ 32 }
        requires amount { self.amount < 2 ^ 62 }
        requires claim { amount < 2 ^ 62 }
        ensures { result ≡ with_claim self amount }
    {
        Totals {
            count: self.count + 1,
            amount: self.amount + amount,
        }
    }
}

impl Tally {
    // The tally after a record of that sort; a trailer has to state its group's totals.
    pub(crate) fn with_record(self, sort: Sort, stated: Totals) -> Result<Tally, Fault>
        requires few { Few 10000 self }
        requires stated { stated.amount < 10 ^ 12 }
        ensures { result ≡ tallied sort stated self }
    {
        let Tally { file, group } = self;
        match sort {
            Sort::Header => Ok(Tally {
                file: Figures {
                    groups: file.groups + 1,
                    ..file
                },
                group: Totals::default(),
            }),
            Sort::Data => Ok(Tally {
                file: Figures {
                    requested: file.requested.with_claim(stated.amount),
                    ..file
                },
                group: group.with_claim(stated.amount),
            }),
            Sort::Trailer => {
                if stated.count != group.count {
                    Err(Fault::WrongCount)
                } else if stated.amount != group.amount {
                    Err(Fault::WrongAmount)
                } else {
                    Ok(self)
                }
            }
            Sort::End => Ok(self),
        }
    }
}
