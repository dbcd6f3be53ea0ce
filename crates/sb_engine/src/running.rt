//! An engine at work.

ghost use Rattle.std.specs.Prelude.{◌≡◌};

use sb_asking::{OpenRelation, Place};
use sb_deferred::Queue;
use sb_drive::PageSpace;
use sb_registry::Boxes;
use sb_value::RecKey;

/// What an engine keeps of a transaction beside its pages: the relations that the command has opened; what waits for the commit, and
/// how many of its actions were taken out already; the owners of instances that are to go at the commit; and the record keys that the
/// command's work picked.
#[derive(Drop)]
pub struct Work {
    pub opened: Vec<OpenRelation>,
    pub queue: Queue,
    pub done: u64,
    pub gone: Vec<u16>,
    pub picks: Vec<RecKey>,
}

/// An engine at work on a transaction: live boxes, a space of pages, what it keeps beside them, and where the catalogue is.
#[derive(Drop)]
pub struct Running<'a, B, S> {
    pub boxes: &'a B,
    pub space: &'a mut S,
    pub work: &'a mut Work,
    pub place: Place,
}

impl<'a, B: Boxes, S: PageSpace> Running<'a, B, S> {
    pub fn new(
        boxes: &'a B,
        space: &'a mut S,
        work: &'a mut Work,
        place: Place,
    ) -> Running<'a, B, S>
        ensures same_space { result.space.ghost_name ≡ space.entry.ghost_name }
        ensures same_work { result.work.ghost_name ≡ work.entry.ghost_name }
        ensures boxes { result.boxes.now ≡ boxes.now }
        ensures space { result.space.now ≡ space.old }
        ensures work { result.work.now ≡ work.old }
        ensures place { result.place ≡ place }
    {
        Running {
            boxes,
            space,
            work,
            place,
        }
    }
}
