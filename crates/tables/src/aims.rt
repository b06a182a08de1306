ghost use Rattle.std.specs.Prelude.{◌≡◌, ℕ, ◌+◌, ◌^◌, ◌<◌, length, Option};
ghost use Rattle.graph.specs.Entries.{Entry};
ghost use Rattle.graph.specs.Rules.{aim_refusal};
ghost use Rattle.tables.specs.Rows.{Held, star_entry, import_entry, meant};
ghost use Rattle.tables.specs.Staging.{AimsTold};

use super::kinds::kind_at;
use super::lists::{ImportRow, ModuleRow};
use graph::fault::{Fault, Layer, Reason};
use graph::records::Star;
use graph::rules::star_aim;

// A record that aims at a module.
pub trait Aimed: Copy {
    ghost entry: { Self → Entry };

    // Why its target is refused.
    fn aim(&self, modules: &[ModuleRow]) -> Option<Reason>
        ensures { (h : Held) → h.modules ≡ modules.now → result ≡ aim_refusal (meant h) (entry self.now) };
}

impl Aimed for Star {
    ghost entry = { star_entry };

    fn aim(&self, modules: &[ModuleRow]) -> Option<Reason> {
        star_aim(kind_at(modules, usize::from(self.target)))
    }
}

// One comparison, which opening a sheet has too: a function of `graph` around it would be no plainer.
impl Aimed for ImportRow {
    ghost entry = { import_entry };

    fn aim(&self, modules: &[ModuleRow]) -> Option<Reason> {
        if usize::from(self.target) >= modules.len() {
            return Some(Reason::NoRecord);
        }
        None
    }
}

// Checks the targets of the records of a list, each by itself, where `first` records stand in the lists before it. Apart
// from `check_rows`, which says why.
pub(crate) fn check_aims<R: Aimed>(
    modules: &[ModuleRow],
    rows: &[R],
    first: usize,
) -> Result<(), Fault>
    requires { first + length rows.now < 2 ^ 64 }
    ensures { (h : Held) → h.modules ≡ modules.now → (owner : R → Option ℕ) → AimsTold h owner R.entry first rows.now result }
{
    for (i, row) in rows.iter().enumerate() {
        if let Some(reason) = row.aim(modules) {
            return Err(Layer::Tables.fault(reason, first + i));
        }
    }
    Ok(())
}
