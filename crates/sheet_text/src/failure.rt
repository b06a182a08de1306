ghost use Rattle.std.specs.Prelude.{◌≡◌};
ghost use Rattle.sheet_text.specs.declared.failure.Failure.TheVariants.{Refused, NoMemory};

use graph::fault::Fault;
use std::alloc::AllocError;

// Why a sheet is not shown: it is refused, or there is no memory for its text.
#[derive(Clone, Copy)]
pub enum Failure {
    Refused(Fault),
    NoMemory,
}

impl From<Fault> for Failure {
    ghost from_gives = { λ f r. r ≡ Refused f };

    fn from(value: Fault) -> Failure {
        Failure::Refused(value)
    }
}

impl From<AllocError> for Failure {
    ghost from_gives = { λ _ r. r ≡ NoMemory };

    fn from(value: AllocError) -> Failure {
        let AllocError = value;
        Failure::NoMemory
    }
}
