// An afternoon of calls at a bank: the state that the program replay holds, the commands it reads, and what each command does.
#![tactic(auto)]

pub mod commands;
pub mod desk;
pub mod performing;
pub mod staff;
