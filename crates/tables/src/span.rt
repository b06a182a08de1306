ghost use Rattle.std.specs.Prelude.{◌≡◌, true, false, MatchOption};
ghost use Rattle.tables.specs.Spans.{inside, bytes_in, is_read};

use super::lists::Span;

impl Span {
    // Whether it ends inside the byte run.
    pub fn is_inside(self, run: &[u8]) -> bool
        ensures { result ≡ inside run.now self }
    {
        self.offset <= run.len() && self.len <= run.len() - self.offset
    }

    // The bytes that it names, as far as the run has them.
    pub fn bytes(self, run: &[u8]) -> &[u8]
        ensures { result.now ≡ bytes_in run.now self }
    {
        let from = self.offset.min(run.len());
        let rest = &run[from..];
        let len = self.len.min(rest.len());
        &rest[..len]
    }

    // The bytes that it names, where they end inside the run and are neither none nor more than `longest`.
    pub(crate) fn read(self, run: &[u8], longest: usize) -> Option<&[u8]>
        ensures { MatchOption result (is_read longest run.now self ≡ false) (λ bytes. (is_read longest run.now self ≡ true) × (bytes.now ≡ bytes_in run.now self)) }
    {
        let bytes = self.bytes(run);
        if !self.is_inside(run) || bytes.is_empty() || bytes.len() > longest {
            return None;
        }
        Some(bytes)
    }
}
