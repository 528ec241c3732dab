// What a claim is posted to: the interface that every host shows, and two hosts, the ledger and the sheet.
#![tactic(auto)]

pub mod book;
pub mod host;
pub mod ledger;
pub mod sheet;
