// The check of a bare request file: its length, the order of its records, their fields, and its groups' totals.
#![tactic(auto)]

pub mod c;
pub mod check;
pub mod groups;
pub mod lengths;
mod order;
pub mod shown;
pub mod totals;
