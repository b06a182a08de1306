ghost use Rattle.std.specs.Prelude.{◌≡◌, Ok, string_bytes, MatchResult};
ghost use Rattle.graph.specs.Graphs.{Graph};
ghost use Rattle.sheet.specs.Opening.{opened, entries};
ghost use Rattle.sheet_text.specs.Lines.{sheet_text};
ghost use Rattle.sheet_text.specs.Failing.{Fails};

use super::failure::Failure;
use super::text::sheet_text;
use sheet::open;
use std::alloc::Global;

// What is shown of a sheet: its text, or why there is none.
pub fn show(heap: Global, bytes: &[u8]) -> Result<String, Failure>
    ensures { MatchResult result (λ t. ((g : Graph) × (opened bytes.now ≡ Ok g)) × (string_bytes t ≡ sheet_text (entries bytes.now))) (λ f. Fails bytes.now f) }
{
    open(bytes)?;
    let text = sheet_text(heap, bytes)?;
    Ok(text)
}

#[cfg(test)]
mod tests {
    use super::*;
    use std::test::Fail;

    #[test]
    fn a_refusal_comes_up_unchanged(rt: HostRuntime) -> Result<(), Fail> {
        let heap = rt.alloc();
        let Err(Failure::Refused(fault)) = show(heap, b"\x01\x00\x07default\x06\x00\x00") else {
            return Err(Fail::new("not refused"));
        };
        let text = fault.to_string(heap)?;
        assert_eq!(rt; text.as_str(), "refused 11 at 10 in sheet");
        Ok(())
    }
}
