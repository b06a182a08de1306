// Shows what stands on the sheet that comes on standard input, or why the sheet is refused.
#![tactic(auto)]

use sheet::MOST_BYTES;
use sheet_text::failure::Failure;
use sheet_text::show::show;
use std::io;
use std::io::{ErrorKind, Read};
use std::process::ExitCode;

// One byte more than a sheet may have, so that a longer input is seen to be too long.
const MOST: u64 = MOST_BYTES as u64 + 1;

fn read_sheet(rt: &(impl Input + AllocGlobal)) -> io::Result<Vec<u8>> {
    let mut bytes = Vec::new(rt.alloc());
    rt.reader().take(MOST).read_to_end(&mut bytes)?;
    Ok(bytes)
}

// Shows the sheet, and gives the status to end with.
fn run(rt: &(impl Input + AllocGlobal + Print)) -> io::Result<ExitCode> {
    let bytes = read_sheet(rt)?;
    match show(rt.alloc(), bytes.as_slice()) {
        Ok(text) => {
            let text = text.as_str();
            print!(rt; "{text}")?;
            Ok(ExitCode::SUCCESS)
        }
        Err(Failure::Refused(fault)) => {
            println!(rt; "{fault}")?;
            Ok(ExitCode::FAILURE)
        }
        Err(Failure::NoMemory) => Err(io::Error::from(ErrorKind::OutOfMemory)),
    }
}

fn main(rt: HostRuntime) -> io::Result<ExitCode> {
    run(&rt)
}
