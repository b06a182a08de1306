ghost use Rattle.std.specs.Prelude.{◌≡◌};
ghost use Rattle.tables.specs.Rows.{import_of};

use super::lists::ImportRow;
use graph::records::{Import, Wanted};

// The import that a row stands for.
impl From<ImportRow> for Import {
    ghost from_gives = { λ row import. import ≡ import_of row };

    fn from(row: ImportRow) -> Import {
        Import {
            owner: row.owner,
            symbol: row.symbol,
            target: row.target,
            wanted: Wanted::from(row.name),
        }
    }
}
