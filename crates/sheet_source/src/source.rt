ghost use Rattle.std.specs.Prelude.{◌≡◌, ◌≤◌, Err, MatchResult};
ghost use Rattle.sheet.specs.Opening.{opened, graph_of, entries};
ghost use Rattle.sheet.specs.Owning.{owned, records_left};
ghost use Rattle.sheet.proofs.Soundly.{graph_sound};

use super::sheets::Sheet;
use graph::fault::Fault;
use graph::records::{Export, Import, Kind};
use graph::source::ModuleSource;
use sheet::open;
use sheet::records::{Record, Records};

impl<'a> Sheet<'a> {
    // The sheet of these bytes, or its first fault.
    pub fn open(bytes: &'a [u8]) -> Result<Self, Fault>
        ensures { MatchResult result (λ sheet. sheet.bytes.now ≡ bytes.now) (λ fault. opened bytes.now ≡ Err fault) }
    {
        open(bytes)?;
        Ok(Sheet { bytes })
    }

    // A sheet for any bytes: where these are refused, one with the name `default` and no module. Not a `From`, whose name
    // would not say so.
    pub fn of(bytes: &'a [u8]) -> Self
        ensures { graph_of result.bytes.now ≡ graph_of bytes.now }
    {
        Sheet::open(bytes).unwrap_or(Sheet {
            bytes: b"\x01\x00\x07default",
        })
    }

    // Its records, each with its owner.
    fn records(&self) -> Records<'a>
        ensures { records_left result ≡ owned 0 (entries self.now.bytes.now) }
    {
        Records::of(self.bytes)
    }
}

impl ModuleSource for Sheet<'_> {
    ghost graph = { λ s. graph_of s.bytes.now };

    ghost sound = { λ s. graph_sound s.bytes.now };

    fn module_count(&self) -> usize {
        self.records().filter_map(Record::kind).count()
    }

    fn import_count(&self) -> usize {
        self.records().filter_map(Record::import).count()
    }

    fn kind(&self, m: usize) -> Option<Kind> {
        self.records().filter_map(Record::kind).nth(m)
    }

    fn star(&self, m: usize, k: usize) -> Option<u16> {
        self.records()
            .filter_map(Record::star)
            .filter(|star| usize::from(star.owner) == m)
            .nth(k)
            .map(|star| star.target)
    }

    fn export(&self, m: usize, k: usize) -> Option<Export> {
        self.records()
            .filter_map(Record::export)
            .filter(|export| usize::from(export.owner) == m)
            .nth(k)
    }

    fn import(&self, i: usize) -> Option<Import> {
        self.records().filter_map(Record::import).nth(i)
    }

    fn exported_symbol(&self, m: usize, n: usize) -> Option<u16> {
        self.records()
            .filter_map(Record::export)
            .find(|export| usize::from(export.owner) == m && usize::from(export.name) == n)
            .map(|export| export.symbol)
    }

    fn import_behind(&self, m: usize, s: usize) -> Option<Import> {
        self.records().filter_map(Record::import).find(|import| {
            usize::from(import.owner) == m && usize::from(import.symbol) == s
        })
    }
}

#[cfg(test)]
mod tests {
    use super::*;
    use graph::records::Wanted;

    // Module 0 imports name 1 of module 1, which has two star records; modules 2 and 3 export name 1.
    const SAMPLE: &[u8] = b"\x01\x00\x07default\x01\x00\x01x\
        \x02\x00\x02\x00a\x04\x00\x06\x00\x05\x00\x01\x00\x01\
        \x02\x00\x02\x00b\x03\x00\x02\x00\x02\x03\x00\x02\x00\x03\
        \x02\x00\x02\x00c\x05\x00\x04\x00\x01\x00\x07\
        \x02\x00\x02\x00d\x05\x00\x04\x00\x01\x00\x09\
        \x02\x00\x02\x01e";

    // The number of modules of a source behind a `dyn`, whose graph is sound too.
    fn few_modules(source: &dyn ModuleSource) -> usize
        ensures { result ≤ 256 }
    {
        source.module_count()
    }

    #[test]
    fn answers_from_its_graph(rt: HostRuntime) {
        let sheet = Sheet::of(SAMPLE);
        let import = Import {
            owner: 0,
            symbol: 5,
            target: 1,
            wanted: Wanted::Name(1),
        };
        let export = Export {
            owner: 3,
            name: 1,
            symbol: 9,
        };
        assert_eq!(rt; sheet.module_count(), 5);
        assert_eq!(rt; sheet.import_count(), 1);
        assert_eq!(rt; sheet.kind(4), Some(Kind::External));
        assert_eq!(rt; sheet.star(1, 1), Some(3));
        assert_eq!(rt; sheet.export(3, 0), Some(export));
        assert_eq!(rt; sheet.import(0), Some(import));
        assert_eq!(rt; sheet.exported_symbol(2, 1), Some(7));
        assert_eq!(rt; sheet.import_behind(0, 5), Some(import));
    }

    #[test]
    fn answers_none_outside_its_graph(rt: HostRuntime) {
        let sheet = Sheet::of(SAMPLE);
        assert_eq!(rt; sheet.kind(5), None);
        assert_eq!(rt; sheet.star(1, 2), None);
        assert_eq!(rt; sheet.export(1, 0), None);
        assert_eq!(rt; sheet.import(1), None);
        assert_eq!(rt; sheet.exported_symbol(1, 1), None);
        assert_eq!(rt; sheet.import_behind(1, 5), None);
    }

    #[test]
    fn a_dyn_source_has_few_modules(rt: HostRuntime) {
        assert_eq!(rt; few_modules(&Sheet::of(SAMPLE)), 5);
    }

    #[test]
    fn refused_bytes_have_no_module(rt: HostRuntime) {
        let sheet = Sheet::of(b"\x02\x00\x02\x00a");
        assert_eq!(rt; sheet.module_count(), 0);
        assert_eq!(rt; sheet.kind(0), None);
    }
}
