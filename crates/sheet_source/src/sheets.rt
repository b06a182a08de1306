ghost use Rattle.std.specs.Prelude.{◌≡◌, true, is_ok};
ghost use Rattle.sheet.specs.Opening.{opened};

// A sheet that opens, read in place.
#[derive(Clone, Copy)]
pub struct Sheet<'a> {
    pub bytes: &'a [u8],
    ghost opens: { is_ok (opened bytes.now) ≡ true },
}
