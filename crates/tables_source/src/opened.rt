ghost use Rattle.std.specs.Prelude.{◌≡◌, true, is_ok};
ghost use Rattle.tables.specs.Opening.{opened};
ghost use Rattle.tables.specs.Borrowed.{held};

use tables::lists::Lists;

// Tables that open.
#[derive(Clone, Copy)]
pub struct Tables<'a> {
    pub lists: Lists<'a>,
    ghost opens: { is_ok (opened (held lists)) ≡ true },
}
