// Tables: a module graph written as five lists of records.
#![tactic(auto)]

mod aims;
mod checks;
pub mod imports;
pub mod kinds;
mod lending;
pub mod lists;
mod names;
pub mod owned;
pub mod owners;
mod places;
mod row;
mod rows;
pub mod span;

pub use checks::open;
