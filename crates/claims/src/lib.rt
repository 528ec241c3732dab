// Claims, which keep the widths of their parts, and the result codes that answer them.
#![tactic(auto)]

pub mod claim;
pub mod codes;
pub mod terms;
