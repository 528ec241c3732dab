// The four registers that stand above a host, and piles of them: nested by type, or stacked while the program runs.
#![tactic(auto)]

pub mod above;
pub mod layered;
pub mod pile;
pub mod piled;
pub mod register;
