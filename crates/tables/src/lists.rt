use graph::records::{Export, Star};

// Where a name or an id stands in the byte run.
#[derive(Clone, Copy, PartialEq, Eq, Debug)]
pub struct Span {
    pub offset: usize,
    pub len: usize,
}

// A module: its kind and its id. The kind is a number, as the format of tables writes it: opening refuses one that no
// kind has.
#[derive(Clone, Copy, PartialEq, Eq, Debug)]
pub struct ModuleRow {
    pub kind: u8,
    pub id: Span,
}

// An import of module `owner`, bound there to `symbol`. The name is a number, 65535 for the whole namespace, since the
// format of tables has it so: with a `Wanted` there would be two ways to write the number. Opening refuses a number that
// no name has.
#[derive(Clone, Copy, PartialEq, Eq, Debug)]
pub struct ImportRow {
    pub owner: u16,
    pub symbol: u16,
    pub target: u16,
    pub name: u16,
}

// Five lists of records, and the run of bytes in which their names and ids stand.
#[derive(Clone, Copy)]
pub struct Lists<'a> {
    pub bytes: &'a [u8],
    pub names: &'a [Span],
    pub modules: &'a [ModuleRow],
    pub stars: &'a [Star],
    pub imports: &'a [ImportRow],
    pub exports: &'a [Export],
}
