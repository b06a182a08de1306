// Tables that open, as a source of their module graph.
#![tactic(auto)]

pub mod opened;
pub mod source;
