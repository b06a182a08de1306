// Opens the sheets and tables of a list from standard input, and tells which answers are not
// the expected ones. tools/sheet_cases.py and tools/tables_cases.py write the list and say how
// a line reads.
#![tactic(auto)]

use case_list::replay::replay;
use case_list::subject::SheetOrTables;
use std::io;
use std::io::BufReader;

// Each program has its own: a public function of `case_list` gets a contract, and no clause can speak of what a program
// reads and prints.
fn run(rt: &(impl Input + AllocGlobal + Print)) -> anyhow::Result<()> {
    let list = BufReader::new(rt.alloc(), rt.reader())?;
    let tally = replay::<SheetOrTables, _>(rt.alloc(), list, &mut io::writer(rt))?;
    rt.println(tally)?;
    Ok(())
}

fn main(rt: HostRuntime) -> anyhow::Result<()> {
    run(&rt)
}
