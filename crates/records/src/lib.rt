// The four records of a request file: their layouts, one field's test, and one record's test.
#![tactic(auto)]

pub mod fields;
pub mod layouts;
pub mod record;
