// Rows in order, added one after the other: what a ledger and a sheet are made of.
ghost use Rattle.std.specs.Prelude.{◌≡◌, ◌<◌, [], ◌∷◌, ◌++◌, is_ok, IsOk, IfErr, if◌then◌else◌, vec_len, vec_capacity};

use std::alloc::{AllocFailed, Global};

#[derive(Drop)]
pub struct Book<R> {
    pub(crate) rows: Vec<R>,
}

impl<R> Book<R> {
    pub fn new(heap: Global) -> Book<R>
        ensures { result.rows.items ≡ [] }
    {
        Book {
            rows: Vec::new(heap),
        }
    }

    /// Adds a row after the others; any numbers will do.
    // That the row comes back is said of each call: the error is the library's, and its type cannot know which row it has.
    pub fn add(&mut self, row: R) -> Result<(), AllocFailed<R>>
        ensures rows { self.new.rows.items ≡ (if is_ok result then self.old.rows.items ++ row ∷ [] else self.old.rows.items) }
        ensures refused { IfErr result (λ y. y.value ≡ row) }
        ensures succeeds { vec_len self.old.rows < vec_capacity self.old.rows → IsOk result }
    {
        self.rows.push(row)
    }

    pub fn rows(&self) -> &[R]
        ensures { result.now ≡ self.now.rows.items }
    {
        self.rows.as_slice()
    }
}
