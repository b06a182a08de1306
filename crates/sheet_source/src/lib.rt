// A sheet read in place, as a source of its module graph.
#![tactic(auto)]

pub mod sheets;
pub mod source;
