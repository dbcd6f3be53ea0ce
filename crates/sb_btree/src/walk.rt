//! The answers of walks.

ghost use Rattle.std.specs.Prelude.{◌≡◌};
ghost use Rattle.sb_btree.specs.Walks.{as_walk};

use std::alloc::AllocError;

/// What a walk over the pages that a Ctx holds comes to: an end, or what it lacks. `Need` asks for a page, `Fresh` for a
/// page that nobody has. The page of `Broken` is held, and is empty, no page of a tree, not one level below the page
/// above it, an inner page with one child, or has an entry that no page of its level has.
#[derive(Drop)]
pub enum Walk<T> {
    Ready(T),
    Need(u32),
    Fresh,
    Broken(u32),
    NoMemory,
}

/// Why a walk has no end yet.
#[derive(Clone, Copy)]
pub enum Stop {
    Need(u32),
    Fresh,
    Broken(u32),
    NoMemory,
}

impl From<AllocError> for Stop {
    ghost use Rattle.sb_btree.specs.declared.walk.Stop.TheVariants.{NoMemory};

    ghost from_gives = { λ _ stop. stop ≡ NoMemory };

    fn from(_error: AllocError) -> Stop {
        Stop::NoMemory
    }
}

/// An outcome as callers of the crate see it.
pub fn answer<T>(outcome: Result<T, Stop>) -> Walk<T>
    ensures { result ≡ as_walk outcome }
{
    match outcome {
        Ok(end) => Walk::Ready(end),
        Err(Stop::Need(n)) => Walk::Need(n),
        Err(Stop::Fresh) => Walk::Fresh,
        Err(Stop::Broken(n)) => Walk::Broken(n),
        Err(Stop::NoMemory) => Walk::NoMemory,
    }
}
