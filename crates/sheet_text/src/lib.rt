// The readable text of a sheet: a summary, and a line for each record.
#![tactic(auto)]

mod counts;
mod escape;
pub mod failure;
mod lines;
pub mod show;
pub mod text;
