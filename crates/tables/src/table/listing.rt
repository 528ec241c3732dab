// Making an empty table, finding a row, listing one and striking one off.
ghost use Rattle.std.specs.Prelude.{◌≡◌, ℕ, ◌<◌, [], IfSome, IfOk, vec_len};
ghost use Rattle.std.specs.List.{position_from};
ghost use Rattle.tables.specs.Figures.{figures_above};
ghost use Rattle.tables.specs.Tables.{is_listed, list_answer, listed, strike_answer, struck};

use super::Table;
use crate::rows::Row;
use denials::Denial;
use std::alloc::{AllocError, Global};

/// The most rows that a register holds.
pub const ROW_LIMIT: usize = 256;

impl<R: Row + Copy> Table<R> {
    /// An empty table. The room for all its rows is reserved here, so that listing never wants memory.
    pub fn new(heap: Global) -> Result<Table<R>, AllocError>
        ensures { IfOk result (λ t. t.rows.items ≡ []) }
    {
        let rows = Vec::with_capacity(heap, ROW_LIMIT)?;
        Ok(Table { rows })
    }

    pub fn rows(&self) -> &[R]
        ensures { result.now ≡ self.now.rows.items }
    {
        self.rows.as_slice()
    }

    // Where the row that is known by the same parts stands.
    pub(crate) fn position(&self, key: &R) -> Option<usize>
        ensures value { result ≡ position_from (R.same key.now) 0 self.now.rows.items }
        ensures within { IfSome result (λ i. i < vec_len self.now.rows) }
    {
        self.rows.iter().position(|row| key.is_same(row))
    }

    /// Whether a row that is known by the same parts is there.
    pub fn contains(&self, key: &R) -> bool
        ensures { result ≡ is_listed R.same self.now.rows.items key.now }
    {
        self.position(key).is_some()
    }

    /// Lists a row.
    pub fn list(&mut self, row: R) -> Result<(), Denial>
        ensures answer { result ≡ list_answer R.same R.wide self.old.rows.items row }
        ensures rows { self.new.rows.items ≡ listed R.same R.wide self.old.rows.items row }
        ensures taken { (below : ℕ → ℕ) → figures_above self.new.rows.items below ≡ figures_above self.old.rows.items below }
    {
        if !row.is_wide() {
            return Err(Denial::OutsideWidth);
        }
        if self.contains(&row) {
            return Err(Denial::AlreadyListed);
        }
        if self.rows.len() >= ROW_LIMIT {
            return Err(Denial::RegisterFull);
        }
        self.rows.push_reserved(row);
        Ok(())
    }

    /// Strikes off the row that is known by the same parts as this one; its place is free again.
    pub fn strike(&mut self, key: &R) -> Result<(), Denial>
        ensures answer { result ≡ strike_answer R.same R.wide_key self.old.rows.items key.now }
        ensures rows { self.new.rows.items ≡ struck R.same R.wide_key self.old.rows.items key.now }
        ensures taken { (below : ℕ → ℕ) → figures_above self.new.rows.items below ≡ figures_above self.old.rows.items below }
    {
        if !key.is_wide_key() {
            return Err(Denial::OutsideWidth);
        }
        let i = self.position(key).ok_or(Denial::NotListed)?;
        self.rows.remove(i);
        Ok(())
    }
}
