//! Sessions.

ghost use Rattle.std.specs.Prelude.{◌≡◌, ◌||◌};
ghost use Rattle.sb_session.specs.Ends.{is_end};

use sb_fold::Refusal;
use sb_transactions::{OpenRelation, Place, Point, Space, Transaction};
use sb_value::Str;

/// A savepoint: its name, and where the work of its transaction stood.
#[derive(Drop)]
pub struct Savepoint {
    pub name: Str,
    pub point: Point,
}

/// An open transaction with its savepoints, in the order in which they were made.
#[derive(Drop)]
pub struct Open {
    pub transaction: Transaction,
    pub points: Vec<Savepoint>,
}

/// Boxes, live and spare; the pages of a store, and where its catalogue is; the relations of the committed database that stay open between
/// transactions; the open transaction; and whether a fault or damage ended the session. Once one has, every command answers `Down`.
#[derive(Drop)]
pub struct Session<B> {
    pub boxes: B,
    pub space: Space,
    pub place: Place,
    pub opened: Vec<OpenRelation>,
    pub open: Option<Open>,
    pub down: bool,
}

impl<B> Session<B> {
    /// Notes that a refusal ends the session, where it is a fault or damage, and gives it back.
    pub(crate) fn refused(&mut self, refusal: Refusal) -> Refusal
        ensures same { result ≡ refusal }
        ensures down { self.new.down ≡ (self.old.down || is_end refusal) }
        ensures boxes { self.new.boxes ≡ self.old.boxes }
        ensures space { self.new.space ≡ self.old.space }
        ensures place { self.new.place ≡ self.old.place }
        ensures opened { self.new.opened ≡ self.old.opened }
        ensures open { self.new.open ≡ self.old.open }
    {
        if matches!(refusal, Refusal::Fault | Refusal::Damaged { .. }) {
            self.down = true;
        }
        refusal
    }
}
