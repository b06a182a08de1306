// Replays lists of cases: each line has a subject to open, and what opening it should give.
// tools/sheet_cases.py and tools/tables_cases.py write the lists and say how a line reads.
#![tactic(auto)]

mod answer;
mod bytes;
mod case;
mod complaint;
mod items;
mod parts;
mod records;
pub mod replay;
pub mod subject;
mod table_parts;
pub mod tally;
