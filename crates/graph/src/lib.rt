// What a module graph is: its records, the faults of those who write one, and where one comes from.
#![tactic(auto)]

pub mod fault;
pub mod limits;
pub mod lookups;
pub mod records;
pub mod rules;
pub mod source;
