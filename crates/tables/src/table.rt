// The rows of one register: at most 256, for which there is room from the start.
ghost use Rattle.std.specs.Prelude.{◌≤◌, vec_len, vec_capacity};
ghost use Rattle.tables.specs.Tables.{row_limit};

mod ceilings;
mod listing;

#[derive(Drop)]
pub struct Table<R> {
    rows: Vec<R>,
    ghost room: { (row_limit ≤ vec_capacity rows) × (vec_len rows ≤ row_limit) },
}
