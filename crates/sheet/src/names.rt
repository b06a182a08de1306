ghost use Rattle.std.specs.Prelude.{◌≡◌, Err, MatchResult};
ghost use Rattle.graph.specs.Graphs.{no_records};
ghost use Rattle.sheet.specs.Borrowed.{is_name};
ghost use Rattle.sheet.specs.Opening.{fields_at, gathered};
ghost use Rattle.sheet.specs.Progressing.{Head};
ghost use Rattle.sheet.specs.Reading.{fields_left};

use super::field::{Field, FieldAt};
use super::fields::Fields;
use graph::fault::{Fault, Layer, Reason};
use graph::limits::MOST_NAMES;
use graph::rules::is_wrong_first;

// The names at the head of a sheet: how many, and the fields behind them.
#[derive(Clone, Copy)]
pub struct Names<'a> {
    pub count: usize,
    pub behind: Fields<'a>,
}

// Whether a field is this name.
fn is_name(field: FieldAt, name: &[u8]) -> bool
    ensures { result ≡ is_name field.entry.content name.now }
{
    matches!(field.content, Ok(Field::Name { bytes, .. }) if name == bytes)
}

// Reads the names at the head of a sheet, up to the first field that is no name. Nested loops that a label ends at the
// first name given twice are a form that this repository keeps for names (docs/DECISIONS.md).
pub fn read_names(bytes: &[u8]) -> Result<Names<'_>, Fault>
    ensures { MatchResult result (λ (h : Names). Head (fields_at bytes.now 0) h.count (fields_left h.behind)) (λ e. gathered no_records (fields_at bytes.now 0) ≡ Err e) }
{
    let all = Fields::of(bytes);
    let mut left = all;
    let mut behind = all;
    let mut count = 0;
    let mut repeated = None;
    'names: while let Some(next) = left.next() {
        let Field::Name { bytes: name, .. } = next.field()? else {
            break 'names;
        };
        if is_wrong_first(count, name) {
            return Err(next.fault(Reason::BadName));
        }
        for earlier in all.take(count) {
            if is_name(earlier, name) {
                repeated = Some(next.place);
                break 'names;
            }
        }
        if count >= MOST_NAMES {
            return Err(next.fault(Reason::OverLimit));
        }
        behind = left;
        count += 1;
    }
    match repeated {
        Some(place) => Err(Layer::Sheet.fault(Reason::BadName, place)),
        None => Ok(Names { count, behind }),
    }
}
