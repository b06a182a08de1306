ghost use Rattle.std.specs.Prelude.{◌≡◌, IfOk, string_bytes};
ghost use Rattle.sheet.specs.Opening.{entries};
ghost use Rattle.sheet_text.specs.Counting.{no_counts, counted};
ghost use Rattle.sheet_text.specs.Lines.{sheet_text};

use super::counts::Counts;
use super::lines::Lines;
use sheet::records::Records;
use std::alloc::{AllocError, Global};

// How many records of each sort can be read.
fn count_records(bytes: &[u8]) -> Counts
    ensures { result ≡ counted no_counts (entries bytes.now) }
{
    let mut counts = Counts::default();
    for record in Records::of(bytes) {
        counts = counts.with(record.field);
    }
    counts
}

// The text of a sheet: a summary, and a line for each record up to the first field that cannot be read.
pub fn sheet_text(heap: Global, bytes: &[u8]) -> Result<String, AllocError>
    ensures { IfOk result (λ t. string_bytes t ≡ sheet_text (entries bytes.now)) }
{
    let counts = count_records(bytes);
    format!(in heap; "{counts}\n{}", Lines(bytes))
}

#[cfg(test)]
mod tests {
    use super::*;
    use std::test::Fail;

    #[test]
    fn shows_each_record(rt: HostRuntime) -> Result<(), Fail> {
        let sheet = b"\x01\x00\x07default\
            \x02\x00\x02\x00m\
            \x04\x00\x06\x00\x03\x01\x00\x00\x00\
            \x04\x00\x06\x00\x04\x00\x02\xff\xff\
            \x02\x00\x02\x01x\
            \x02\x00\x02\x02\n\
            \x03\x00\x02\x00\x01\
            \x05\x00\x04\x00\x00\x00\x09";
        let text = sheet_text(rt.alloc(), sheet)?;
        assert_eq!(rt;
            text.as_str(),
            "1 names, 3 modules, 1 star records, 2 imports, 1 exports\n\
             name 0: default\n\
             module 0, ES: m\n\
             import 0 of module 0: name 0 of module 256 as symbol 3\n\
             import 1 of module 0: all of module 2 as symbol 4\n\
             module 1, external: x\n\
             module 2, empty: \\x0a\n\
             star record 0 of module 2: module 1\n\
             export 0 of module 2: symbol 9 as name 0\n"
        );
        Ok(())
    }

    #[test]
    fn stops_at_a_field_cut_short(rt: HostRuntime) -> Result<(), Fail> {
        let text = sheet_text(rt.alloc(), b"\x03\x00\x02\x00\x07\x01\x00\x02a")?;
        assert_eq!(rt;
            text.as_str(),
            "0 names, 0 modules, 1 star records, 0 imports, 0 exports\n\
             star record 0 of module 0: module 7\n"
        );
        Ok(())
    }
}
