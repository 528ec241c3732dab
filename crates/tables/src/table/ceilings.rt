// A table of ceilings: what is left to a biller, and the row that falls.
ghost use Rattle.std.specs.Prelude.{◌≡◌};
ghost use Rattle.hosts.specs.Firsts.{at_first};
ghost use Rattle.tables.specs.Ceilings.{of_biller, left_to, lowered};

use super::Table;
use crate::rows::CeilingRow;

impl Table<CeilingRow> {
    /// The amount left to a biller, if it has a row.
    pub fn left_to(&self, biller: u64) -> Option<u64>
        ensures { result ≡ left_to biller self.now.rows.items }
    {
        self.rows
            .iter()
            .find(|row| biller == row.biller)
            .map(|row| row.left)
    }

    /// Lowers the biller's row by the amount, if it has one, and at most to 0.
    pub fn lower(&mut self, biller: u64, amount: u64)
        ensures { self.new.rows.items ≡ at_first (of_biller biller) (lowered amount) self.old.rows.items }
    {
        let key = CeilingRow { biller, left: 0 };
        if let Some(i) = self.position(&key) {
            // One row is lent inside the method, by its place: a rule of the project.
            let row = &mut self.rows[i];
            row.left = row.left.saturating_sub(amount);
        }
    }
}
