//! What a driver does with the answer of a call.

ghost use Rattle.std.specs.Prelude.{◌≡◌};
ghost use Rattle.sb_drive.specs.Turns.{AsksNumbered, turn_of, is_find};

use crate::space::SpaceFault;
use sb_ctx::Move;

/// What a call asks a driver for: a page by its number, a fresh page, or the number of the next page behind this one.
#[derive(Clone, Copy, Debug, PartialEq, Eq, Drop)]
pub enum Ask {
    Page(u32),
    Fresh,
    After(Option<u32>),
}

/// What is to be done: give what is asked for, stop, or end the call with this move.
#[derive(Drop)]
pub enum Turn {
    Give(Ask),
    Stop(SpaceFault),
    End(Move),
}

pub fn turn_of(made: Move) -> Turn
    ensures turn { result ≡ turn_of made }
    ensures numbered { AsksNumbered result }
{
    match made {
        Move::Need(n) => Turn::Give(Ask::Page(n)),
        Move::Fresh => Turn::Give(Ask::Fresh),
        Move::After(n) => Turn::Give(Ask::After(n)),
        Move::Broken(page) => Turn::Stop(SpaceFault::Damaged { page }),
        Move::NoMemory => Turn::Stop(SpaceFault::NoMemory),
        end => Turn::End(end),
    }
}

pub fn is_find(made: &Move) -> bool
    ensures { result ≡ is_find made.now }
{
    matches!(made, Move::Find { .. })
}
