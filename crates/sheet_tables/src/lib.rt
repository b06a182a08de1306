// Sheets read into tables.
#![tactic(auto)]

mod add;
pub mod read;
