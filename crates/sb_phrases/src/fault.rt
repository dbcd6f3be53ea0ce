//! Why tokens are no command.

ghost use Rattle.std.specs.Prelude.{◌≡◌};

use sb_tokens::Placed;
use std::alloc::{AllocError, AllocFailed};

/// Why tokens are no command.
#[derive(Drop)]
pub enum Fault<'a> {
    NoMemory,
    /// The tokens from the first one on with which no command goes on.
    Misfit(&'a [Placed]),
}

impl<'a> From<AllocError> for Fault<'a> {
    ghost use Rattle.sb_phrases.specs.declared.fault.Fault.TheVariants.{NoMemory};

    ghost from_gives = { λ _ fault. fault ≡ NoMemory };

    fn from(_error: AllocError) -> Fault<'a> {
        Fault::NoMemory
    }
}

impl<'a, T: Drop> From<AllocFailed<T>> for Fault<'a> {
    ghost use Rattle.sb_phrases.specs.declared.fault.Fault.TheVariants.{NoMemory};

    ghost from_gives = { λ _ fault. fault ≡ NoMemory };

    fn from(_error: AllocFailed<T>) -> Fault<'a> {
        Fault::NoMemory
    }
}
