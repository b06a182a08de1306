ghost use Rattle.std.specs.Prelude.{◌≡◌, length};
ghost use Rattle.std.specs.List.{slice_get};
ghost use Rattle.graph.specs.Graphs.{Graph};
ghost use Rattle.graph.specs.Lookups.{kind_in, targets_in, exports_in, symbol_in, import_in};
ghost use Rattle.graph.specs.Soundness.{Sound};

use super::records::{Export, Import, Kind};

// Where a module graph comes from. It means one sound graph, and answers from that graph alone.
// Modules, names, imports and symbols are given by their numbers; a number outside the graph gets none.
pub trait ModuleSource {
    ghost graph: { Self → Graph };

    // The number of modules. The law below does not reach a caller that has a `&dyn ModuleSource`, so a clause says it too.
    fn module_count(&self) -> usize
        ensures value { result ≡ length (graph self.now).modules }
        ensures sound { Sound (graph self.now) };

    fn import_count(&self) -> usize
        ensures { result ≡ length (graph self.now).imports };

    fn kind(&self, m: usize) -> Option<Kind>
        ensures { result ≡ kind_in (graph self.now).modules m };

    // Where star record `k` of module `m` aims.
    fn star(&self, m: usize, k: usize) -> Option<u16>
        ensures { result ≡ slice_get (targets_in (graph self.now).stars m) k };

    // Export `k` of module `m`.
    fn export(&self, m: usize, k: usize) -> Option<Export>
        ensures { result ≡ slice_get (exports_in (graph self.now).exports m) k };

    // Import `i` of the whole graph.
    fn import(&self, i: usize) -> Option<Import>
        ensures { result ≡ slice_get (graph self.now).imports i };

    // The symbol that module `m` exports under the name `n`.
    fn exported_symbol(&self, m: usize, n: usize) -> Option<u16>
        ensures { result ≡ symbol_in (graph self.now).exports m n };

    // The import behind symbol `s` of module `m`.
    fn import_behind(&self, m: usize, s: usize) -> Option<Import>
        ensures { result ≡ import_in (graph self.now).imports m s };

    ghost sound: { (s : Self) → Sound (graph s) };
}
