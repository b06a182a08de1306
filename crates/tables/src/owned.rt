use super::lists::{ImportRow, ModuleRow, Span};
use graph::records::{Export, Star};

// Five lists of their own, over a run of bytes that is lent.
#[derive(Drop)]
pub struct OwnedLists<'a> {
    pub bytes: &'a [u8],
    pub names: Vec<Span>,
    pub modules: Vec<ModuleRow>,
    pub stars: Vec<Star>,
    pub imports: Vec<ImportRow>,
    pub exports: Vec<Export>,
}
