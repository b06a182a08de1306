ghost use Rattle.std.specs.Prelude.{◌≡◌};
ghost use Rattle.tables.specs.Borrowed.{held};
ghost use Rattle.tables.specs.Owned.{kept};

use super::lists::Lists;
use super::owned::OwnedLists;

impl OwnedLists<'_> {
    // The lists, lent.
    pub fn lend(&self) -> Lists<'_>
        ensures { held result ≡ kept self.now }
    {
        Lists {
            bytes: self.bytes,
            names: self.names.as_slice(),
            modules: self.modules.as_slice(),
            stars: self.stars.as_slice(),
            imports: self.imports.as_slice(),
            exports: self.exports.as_slice(),
        }
    }
}
