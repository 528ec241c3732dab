// The rows that registers list, and the table of at most 256 rows in which staff list and strike them.
#![tactic(auto)]

pub mod rows;
pub mod table;
