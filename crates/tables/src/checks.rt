ghost use Rattle.std.specs.Prelude.{◌≡◌, ◌+◌, ◌^◌, ◌<◌, length, Ok, Err, MatchResult};
ghost use Rattle.graph.specs.declared.fault.Layer.TheVariants as layer;
ghost use Rattle.graph.specs.Graphs.{no_records};
ghost use Rattle.graph.specs.Opening.{gathered};
ghost use Rattle.graph.specs.Soundness.{Sound};
ghost use Rattle.tables.specs.Rows.{records, meant};
ghost use Rattle.tables.specs.Readable.{Readable};
ghost use Rattle.tables.specs.Staging.{Tells};
ghost use Rattle.tables.specs.Opening.{opened, FirstFault};
ghost use Rattle.tables.specs.Borrowed.{held};

use super::aims::check_aims;
use super::lists::Lists;
use super::names::check_names;
use super::row::Row;
use graph::fault::{Fault, Layer, Reason};

// Checks the records of a list one by one, each behind those before it, where `first` records stand in the lists before
// it. Apart from `check_aims`: what is promised here follows the graph that the records come to, while an aim is checked
// by itself, and one function with a closure would have to carry both contracts.
fn check_rows<R: Row>(lists: Lists, rows: &[R], first: usize) -> Result<(), Fault>
    requires { first + length rows.now < 2 ^ 64 }
    ensures { Tells R.writes (R.content (held lists.entry).bytes) (R.stage (held lists.entry)) first rows.now result }
{
    for (i, row) in rows.iter().enumerate() {
        if let Some(reason) = row.refusal(lists, &rows[..i]) {
            return Err(Layer::Tables.fault(reason, first + i));
        }
    }
    Ok(())
}

// Checks all records, list by list.
fn check_records(lists: Lists) -> Result<(), Fault>
    ensures { MatchResult result (λ _. gathered layer.Tables no_records (records (held lists.entry)) ≡ Ok (meant (held lists.entry))) (λ f. gathered layer.Tables no_records (records (held lists.entry)) ≡ Err f) }
{
    check_names(lists)?;
    check_rows(lists, lists.modules, lists.module_place())?;
    check_rows(lists, lists.stars, lists.star_place())?;
    check_rows(lists, lists.imports, lists.import_place())?;
    check_rows(lists, lists.exports, lists.export_place())
}

// The checks behind the last record: that there is a name, then the targets.
fn finish(lists: Lists) -> Result<(), Fault>
    ensures { gathered layer.Tables no_records (records (held lists.entry)) ≡ Ok (meant (held lists.entry)) → MatchResult result (λ _. opened (held lists.entry) ≡ Ok (meant (held lists.entry))) (λ f. opened (held lists.entry) ≡ Err f) }
{
    if lists.names.is_empty() {
        return Err(Layer::Tables.fault(Reason::BadName, lists.record_count()));
    }
    check_aims(lists.modules, lists.stars, lists.star_place())?;
    check_aims(lists.modules, lists.imports, lists.import_place())
}

// Opens tables: nothing stands in the way, or their first fault does.
pub fn open(lists: Lists) -> Result<(), Fault>
    ensures opens { MatchResult result (λ _. opened (held lists.entry) ≡ Ok (meant (held lists.entry))) (λ f. opened (held lists.entry) ≡ Err f) }
    ensures sound { MatchResult result (λ _. Readable (held lists.entry) × Sound (meant (held lists.entry))) (λ _. Readable (held lists.entry) → Sound (meant (held lists.entry)) → ⊥) }
    ensures first { MatchResult result (λ _. (f : Fault) → FirstFault (held lists.entry) f → ⊥) (λ f. FirstFault (held lists.entry) f × ((e : Fault) → FirstFault (held lists.entry) e → e ≡ f)) }
{
    check_records(lists)?;
    finish(lists)
}
