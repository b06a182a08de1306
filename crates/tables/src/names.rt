ghost use Rattle.tables.specs.Rows.{no_owner, name_content, with_names};
ghost use Rattle.tables.specs.Staging.{Tells};
ghost use Rattle.tables.specs.Borrowed.{held};

use super::lists::Lists;
use graph::fault::{Fault, Layer, Reason};
use graph::limits::{LONGEST_NAME, MOST_NAMES};
use graph::rules::is_wrong_first;

// Checks the names, one by one. The loops end by their label at the first name that is given twice: nested loops left by
// a label are a form that this repository keeps for names (docs/DECISIONS.md).
pub(crate) fn check_names(lists: Lists) -> Result<(), Fault>
    ensures { Tells no_owner (name_content (held lists.entry).bytes) (with_names (held lists.entry)) 0 (held lists.entry).names result }
{
    let run = lists.bytes;
    let names = lists.names;
    let mut repeated = None;
    'names: for (place, span) in names.iter().enumerate() {
        let Some(name) = span.read(run, LONGEST_NAME) else {
            return Err(Layer::Tables.fault(Reason::Malformed, place));
        };
        if is_wrong_first(place, name) {
            return Err(Layer::Tables.fault(Reason::BadName, place));
        }
        for earlier in &names[..place] {
            if name == earlier.bytes(run) {
                repeated = Some(place);
                break 'names;
            }
        }
        if place >= MOST_NAMES {
            return Err(Layer::Tables.fault(Reason::OverLimit, place));
        }
    }
    match repeated {
        Some(place) => Err(Layer::Tables.fault(Reason::BadName, place)),
        None => Ok(()),
    }
}
