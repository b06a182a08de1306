// Sheets: a module graph written as a run of tagged fields.
#![tactic(auto)]

mod checks;
pub mod field;
pub mod fields;
mod names;
mod payload;
mod progress;
pub mod records;

pub use checks::{MOST_BYTES, open};
