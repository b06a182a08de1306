ghost use Rattle.std.specs.Prelude.{◌≡◌, ℕ, List, ◌∷◌, map, length, take, Some, None, Ok, Err, MatchResult, OnOk, ◌==◌, ◌≢◌};
ghost use Rattle.graph.specs.Graphs.{Graph, no_records};
ghost use Rattle.graph.specs.Entries.{Entry, a_name};
ghost use Rattle.graph.specs.Rules.{owned_refusal};
ghost use Rattle.graph.specs.Lookups.{kind_of};
ghost use Rattle.graph.specs.Soundness.{Sound};
ghost use Rattle.sheet.specs.Borrowed.{entry_of};
ghost use Rattle.sheet.specs.Opening.{fields_at, gathered, entry_refusal, aims, too_long, finished, opened};
ghost use Rattle.sheet.specs.Foremost.{FirstFault};
ghost use Rattle.sheet.specs.Progressing.{Head, Standing, Counted, clash_content, clashes, latest_is_es, Roomy, Advanced, aim_by};
ghost use Rattle.sheet.specs.Reading.{placed_of, fields_left};
ghost use Rattle.graph.specs.Opening.{Placed};

use super::field::{Field, FieldAt};
use super::fields::Fields;
use super::names::{Names, read_names};
use super::progress::Progress;
use arrayvec::ArrayVec;
use graph::fault::{Fault, Layer, Reason};
use graph::records::Kind;
use graph::rules::{is_es, owned_refusal, star_aim};

// How many bytes a sheet may have.
pub const MOST_BYTES: usize = 60000;

// Whether `field` may not stand behind `earlier` in one module.
fn clashes_with(field: Field, earlier: FieldAt) -> bool
    ensures { result ≡ clash_content (entry_of field.entry) (placed_of earlier.entry).content }
{
    match (field, earlier.content) {
        (Field::Export { name, .. }, Ok(Field::Export { name: other, .. })) => other == name,
        (Field::Import { symbol, .. }, Ok(Field::Import { symbol: other, .. })) => other == symbol,
        _ => false,
    }
}

impl<'a> Progress<'a> {
    // Behind the names.
    fn behind(names: Names<'a>) -> Self
        ensures { (all : List Placed) → Head all names.entry.count (fields_left names.entry.behind) → (g : Graph) × Standing all result (fields_left names.entry.behind) g }
    {
        Progress {
            names: names.count,
            stars: 0,
            imports: 0,
            exports: 0,
            kinds: ArrayVec::new(),
            own: names.behind,
            owned: 0,
        }
    }

    fn latest_is_es(&self) -> bool
        ensures { result ≡ latest_is_es self.now }
    {
        is_es(self.kinds.as_slice().last().copied())
    }

    // Whether a record of the latest module clashes with `field`. `map` stands before `take`, so that the whole chain is
    // compiled into one loop.
    fn clashes(&self, field: Field) -> bool
        ensures { result ≡ clashes (entry_of field.entry) (take self.now.owned (fields_left self.now.own)) }
    {
        self.own
            .map(|earlier| clashes_with(field, earlier))
            .take(self.owned)
            .any(|clashes| clashes)
    }

    // Why a star record, an import or an export is refused, where there are `count` of its sort.
    fn owned_refusal(&self, count: usize, unknown: bool, twice: bool) -> Option<Reason>
        ensures { result ≡ owned_refusal (length self.now.kinds.items == 0) count unknown twice (latest_is_es self.now) }
    {
        owned_refusal(
            self.kinds.is_empty(),
            count,
            unknown,
            twice,
            self.latest_is_es(),
        )
    }

    // Why `field` is refused behind what came before.
    fn refusal(&self, field: Field) -> Option<Reason>
        ensures first { (all left : List Placed) (g : Graph) → Standing all self.now left g → ((name : List ℕ) → length g.modules ≡ 0 → entry_of field.entry ≢ a_name name) → result ≡ entry_refusal g (entry_of field.entry) }
        ensures roomy { result ≡ None → Roomy self.now (entry_of field.entry) }
    {
        match field {
            Field::Name { .. } => Some(Reason::OutOfOrder),
            Field::Module { .. } if self.kinds.is_full() => Some(Reason::OverLimit),
            Field::Module { .. } => None,
            Field::Star { .. } => self.owned_refusal(self.stars, false, false),
            Field::Import { wanted, .. } => {
                let unknown = wanted.is_unknown(self.names);
                self.owned_refusal(self.imports, unknown, self.clashes(field))
            }
            Field::Export { name, .. } => {
                let unknown = usize::from(name) >= self.names;
                self.owned_refusal(self.exports, unknown, self.clashes(field))
            }
        }
    }

    // Counts `field`. The fields behind it are `behind`.
    fn add(&mut self, field: Field, behind: Fields<'a>)
        requires { Roomy self.old (entry_of field) }
        ensures { Advanced self.old (entry_of field.entry) behind.entry self.new }
    {
        match field {
            Field::Name { .. } => {}
            Field::Module { kind, .. } => {
                self.kinds.push(kind);
                self.own = behind;
                self.owned = 0;
            }
            Field::Star { .. } => {
                self.stars += 1;
                self.owned += 1;
            }
            Field::Import { .. } => {
                self.imports += 1;
                self.owned += 1;
            }
            Field::Export { .. } => {
                self.exports += 1;
                self.owned += 1;
            }
        }
    }

    // Checks the field that is next, and counts it. The fields behind it are `behind`.
    fn take(&mut self, next: FieldAt<'a>, behind: Fields<'a>) -> Result<(), Fault>
        ensures { (all : List Placed) (g : Graph) → Standing all self.old (placed_of next.entry ∷ fields_left behind.entry) g → MatchResult result (λ _. (h : Graph) × Standing all self.new (fields_left behind.entry) h) (λ f. gathered no_records all ≡ Err f) }
    {
        let field = next.field()?;
        if let Some(reason) = self.refusal(field) {
            return Err(next.fault(reason));
        }
        self.add(field, behind);
        Ok(())
    }
}

// Checks the fields behind the names, one by one. What is left is handed on, so it goes by `next`.
fn check_records(names: Names) -> Result<Progress, Fault>
    ensures { (all : List Placed) → Head all names.entry.count (fields_left names.entry.behind) → MatchResult result (λ (s : Progress). (g : Graph) × Counted s g × (gathered no_records all ≡ Ok g)) (λ f. gathered no_records all ≡ Err f) }
{
    let mut progress = Progress::behind(names);
    let mut left = names.behind;
    while let Some(next) = left.next() {
        progress.take(next, left)?;
    }
    Ok(progress)
}

// The last checks of a field, with the kinds of all modules at hand.
fn aim_refusal(field: Field, kinds: &[Kind]) -> Option<Reason>
    ensures { result ≡ aim_by kinds.now (entry_of field.entry) }
{
    match field {
        Field::Star { target } => star_aim(kinds.get(usize::from(target)).copied()),
        Field::Import { target, .. } if usize::from(target) >= kinds.len() => Some(
            Reason::NoRecord,
        ),
        _ => None,
    }
}

// Checks module numbers and star targets, in field order.
fn check_targets(bytes: &[u8], kinds: &[Kind]) -> Result<(), Fault>
    ensures { (g : Graph) → kinds.now ≡ map kind_of g.modules → MatchResult result (λ _. aims g (fields_at bytes.now 0) ≡ None) (λ f. aims g (fields_at bytes.now 0) ≡ Some f) }
{
    for next in Fields::of(bytes) {
        let Ok(field) = next.content else {
            return Ok(());
        };
        if let Some(reason) = aim_refusal(field, kinds) {
            return Err(next.fault(reason));
        }
    }
    Ok(())
}

// Checks the length of a sheet, before anything is read.
fn check_length(bytes: &[u8]) -> Result<(), Fault>
    ensures { MatchResult result (λ _. too_long bytes.now ≡ None) (λ f. too_long bytes.now ≡ Some f) }
{
    if bytes.len() > MOST_BYTES {
        return Err(Layer::Sheet.fault(Reason::BadLength, MOST_BYTES));
    }
    Ok(())
}

// The checks behind the last field: that there is a name, then the targets.
fn finish(bytes: &[u8], progress: &Progress) -> Result<(), Fault>
    ensures { (g : Graph) → Counted progress.now g → MatchResult result (λ _. finished bytes.now g ≡ Ok g) (λ f. finished bytes.now g ≡ Err f) }
{
    if progress.names == 0 {
        return Err(Layer::Sheet.fault(Reason::BadName, bytes.len()));
    }
    check_targets(bytes, progress.kinds.as_slice())
}

// Opens a sheet: nothing stands in the way, or its first fault does.
pub fn open(bytes: &[u8]) -> Result<(), Fault>
    ensures opens { MatchResult result (λ _. (g : Graph) × (opened bytes.now ≡ Ok g) × Sound g) (λ f. opened bytes.now ≡ Err f) }
    ensures first { MatchResult result (λ _. (f : Fault) → FirstFault bytes.now f → ⊥) (λ f. FirstFault bytes.now f × ((e : Fault) → FirstFault bytes.now e → e ≡ f)) }
{
    check_length(bytes)?;
    let names = read_names(bytes)?;
    let progress = check_records(names)?;
    finish(bytes, &progress)
}
