//! Why a call has no end yet.

ghost use Rattle.std.specs.Prelude.{◌≡◌};
ghost use Rattle.sb_heap.specs.Answered.{question_of};

use sb_ctx::Move;
use std::alloc::AllocError;

/// What a call lacks.
#[derive(Clone, Copy)]
pub enum Stop {
    Need(u32),
    Fresh,
    After(Option<u32>),
    Broken(u32),
    NoMemory,
}

impl From<AllocError> for Stop {
    ghost use Rattle.sb_heap.specs.declared.stop.Stop.TheVariants.{NoMemory};

    ghost from_gives = { λ _ stop. stop ≡ NoMemory };

    fn from(_error: AllocError) -> Stop {
        Stop::NoMemory
    }
}

/// The move that asks for it.
pub fn question(stop: Stop) -> Move
    ensures { result ≡ question_of stop }
{
    match stop {
        Stop::Need(n) => Move::Need(n),
        Stop::Fresh => Move::Fresh,
        Stop::After(low) => Move::After(low),
        Stop::Broken(n) => Move::Broken(n),
        Stop::NoMemory => Move::NoMemory,
    }
}
