ghost use Rattle.std.specs.Prelude.{IfOk, IfSome};
ghost use Rattle.std.specs.Str.Lines.{lines};
ghost use Rattle.case_list.specs.Tallies.{Counts};

use crate::complaint::check_line;
use crate::subject::Subject;
use crate::tally::Tally;
use arrayvec::ArrayString;
use std::alloc::Global;
use std::fmt::Write as _;
use std::io;
use std::io::{BufRead, Write};

// How much is written at once.
const LONGEST_WRITE: usize = 1024;

// Writes a line and what is wrong with it, at once if they are short enough.
fn write_wrong(line: &str, complaint: &str, out: &mut impl Write) -> io::Result<()> {
    let mut text = ArrayString::<LONGEST_WRITE>::new();
    match writeln!(text, "{line}\n    {complaint}") {
        Ok(()) => out.write_all(text.as_bytes()),
        Err(_) => writeln!(out, "{line}\n    {complaint}"),
    }
}

// Replays a list, and writes each line that comes out wrong to `out`, with what is wrong with it. With no memory for that
// it fails, before the line is written. Lines that begin with `#` are headings. No clause says what is written.
pub fn replay<S: Subject, L: BufRead + Drop>(
    heap: Global,
    list: L,
    out: &mut impl Write,
) -> anyhow::Result<Tally>
    ensures { IfOk result (λ tally. IfSome (L.remaining list) (λ bytes. Counts S.gives (lines bytes) tally)) }
{
    let mut tally = Tally::new();
    for line in list.lines(heap) {
        let line = line?;
        if line.as_str().starts_with('#') {
            continue;
        }
        let complaint = check_line::<S>(heap, line.as_str());
        tally.count(complaint.is_some());
        if let Some(complaint) = complaint {
            let complaint = complaint.to_string(heap)?;
            write_wrong(line.as_str(), complaint.as_str(), out)?;
        }
    }
    Ok(tally)
}

#[cfg(test)]
mod tests {
    use super::*;
    use crate::subject::{SheetAlone, SheetOrTables};
    use std::test::Fail;

    #[test]
    fn replays_sheets(rt: HostRuntime) -> Result<(), Fail> {
        let heap = rt.alloc();
        let list = b"# the name `default`, once and twice\n\
            01000764656661756c74 = opens\n\
            01000764656661756c74*2 = refused 13 at 10 in sheet\n\
            = refused 13 at 0 in sheet\n\
            # a module whose id has 64 bytes, and 65\n\
            01000764656661756c74 02004100 6d*64 = opens\n\
            01000764656661756c74 02004200 6d*65  =  refused 11 at 10 in sheet\n\
            # wrong\n\
            01000764656661756c74 = refused 13 at 0 in sheet\n\
            01000764656661756c = opens\n\
            tables 64656661756c74 | 0:7 | | | | = opens\n\
            01*x = opens\n\
            01";
        let mut out = Vec::new(heap);
        let tally = replay::<SheetAlone, _>(heap, list.as_slice(), &mut out)?;
        assert_eq!(rt;
            String::from_utf8(out)?.as_str(),
            "01000764656661756c74 = refused 13 at 0 in sheet\n    came: opens\n\
             01000764656661756c = opens\n    came: refused 10 at 0 in sheet\n\
             tables 64656661756c74 | 0:7 | | | | = opens\n    cannot be read: no hex digit\n\
             01*x = opens\n    cannot be read: invalid digit found in string\n\
             01\n    cannot be read: no `=`\n"
        );
        assert_eq!(rt; tally.to_string(heap)?.as_str(), "10 cases, 5 wrong");
        Ok(())
    }

    #[test]
    fn replays_sheets_and_tables(rt: HostRuntime) -> Result<(), Fail> {
        let heap = rt.alloc();
        let list = b"01000764656661756c74 = opens\n\
            tables 64656661756c74 | 0:7 | | | | = opens\n\
            tables 64656661756c74 6d*2 | 0:7 | 0:7:1 1:8:1 | 0:0*3 | 0:1:1:65535 0:2:0:0 | 0:0:3 = opens\n\
            tables 64656661756c74 | 0:7 0:7 | | | | = refused 13 at 1 in tables\n\
            tables 64656661756c74 | 0:7 | 3:0:1 | | | = refused 11 at 1 in tables\n\
            tables 64656661756c74 | 0:7 | 0:0:1 | 1:0 | | = refused 15 at 2 in tables\n\
            # wrong\n\
            tables 64656661756c74 | 1:7 | | | | = opens\n\
            tables 64656661756c74 | 0:7 = opens\n\
            tables 64656661756c74 | 0:7:1 | | | | = opens\n\
            tables 64656661756c74 | 0:7 | 256:0:1 | | | = opens\n";
        let mut out = Vec::new(heap);
        let tally = replay::<SheetOrTables, _>(heap, list.as_slice(), &mut out)?;
        assert_eq!(rt;
            String::from_utf8(out)?.as_str(),
            "tables 64656661756c74 | 1:7 | | | | = opens\n    came: refused 11 at 0 in tables\n\
             tables 64656661756c74 | 0:7 = opens\n    cannot be read: not six parts\n\
             tables 64656661756c74 | 0:7:1 | | | | = opens\n    cannot be read: too many numbers\n\
             tables 64656661756c74 | 0:7 | 256:0:1 | | | = opens\n    cannot be read: out of range integral type conversion attempted\n"
        );
        assert_eq!(rt; tally.to_string(heap)?.as_str(), "10 cases, 4 wrong");
        Ok(())
    }
}
