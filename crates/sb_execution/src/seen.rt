//! What is seen of an engine before a command changes anything.

ghost use Rattle.std.specs.Prelude.{◌≡◌, Some, bytes_eq, IfErr, IfOk};
ghost use Rattle.std.specs.List.{list_any};
ghost use Rattle.sb_engine.specs.Working.{extensions_of};
ghost use Rattle.sb_execution.specs.Seen.{HasFailed, IsReady, LooksOn, Sees};

use sb_catalog::Descriptor;
use sb_drive::PageSpace;
use sb_engine::{OpenRelation, Work, descriptor_at, next_descriptor, open_at, refusal_of};
use sb_fold::Refusal;
use sb_map::Place;
use sb_refusals::Catalogue;
use sb_session::Savepoint;
use sb_value::{Bytes, Names, Schema, Str};
use sb_vectors::Vectors;
use std::alloc::Global;

/// A database by its catalogue in a space of pages, and what is told of its transaction: what is kept beside the pages, whether it was
/// begun by a command, and its savepoints.
#[derive(Drop)]
pub(crate) struct Seen<'a, B, S> {
    pub(crate) boxes: &'a B,
    pub(crate) space: &'a mut S,
    pub(crate) work: &'a Work,
    pub(crate) place: Place,
    pub(crate) points: &'a [Savepoint],
    pub(crate) inside: bool,
}

impl<B: Vectors, S: PageSpace> Catalogue for Seen<'_, B, S> {
    ghost use Rattle.sb_execution.specs.SeenLaws.{few, goes_on, fails_on, rising, same, stays, wants};

    ghost is_ready = { λ a. IsReady S.is_ready a };

    ghost extensions = { λ a. extensions_of (B.meanings a.boxes.now) };

    ghost sees = { λ s a. Sees S.has S.spent B.meanings s a };

    ghost leads = { λ a b. LooksOn S.leads a b };

    ghost fails = { λ r a b. HasFailed S.leads S.fails r a b };

    fn descriptor(&mut self, alloc: Global, name: &Str) -> Result<Option<Descriptor>, Refusal> {
        if let Some(one) = open_at(&self.work.opened, name) {
            return copied(one, alloc);
        }
        match descriptor_at(self.space, alloc, self.place, name) {
            Ok(descriptor) => Ok(descriptor),
            Err(fault) => Err(refusal_of(fault)),
        }
    }

    fn next(
        &mut self,
        alloc: Global,
        after: Option<&Str>,
    ) -> Result<Option<(Str, Descriptor)>, Refusal> {
        match next_descriptor(self.space, alloc, self.place, after) {
            Ok(found) => Ok(found),
            Err(fault) => Err(refusal_of(fault)),
        }
    }

    fn is_down(&self) -> bool {
        false
    }

    fn is_inside(&self) -> bool {
        self.inside
    }

    fn has_waiting(&self) -> bool {
        self.work.queue.action(self.work.done).is_some()
    }

    fn points(&self) -> usize {
        self.points.len()
    }

    fn has_point(&self, name: &Str) -> bool {
        has_named(self.points, name)
    }

    fn has_code(&self, live: bool, method: bool, code: u16) -> bool {
        self.boxes.has_code(live, method, code)
    }

    fn method_fits(&self, code: u16, schema: &Schema, key: &Names) -> bool {
        self.boxes.method_fits(code, schema, key)
    }

    fn rule_fits(&self, code: u16, schema: &Schema, desc: &Bytes) -> bool {
        self.boxes.rule_fits(code, schema, desc)
    }

    fn is_durable(&self, method: u16) -> bool {
        self.boxes.outlives(method)
    }

    ghost stays = { λ a. stays S.leads S.stays a };

    ghost goes_on = { λ a b c first second. goes_on S.leads S.goes_on a b c first second };

    ghost fails_on = { λ r a b c leads fails. fails_on S.leads S.fails S.goes_on S.fails_on r a b c leads fails };

    ghost wants = { λ a b leads. wants S.leads S.fails a b leads };

    ghost same = { λ a b leads. same B.meanings S.leads a b leads };

    ghost rising = { λ s a sees. rising S.has S.spent B.meanings s a sees };

    ghost few = { λ s a sees. few S.has S.spent B.meanings s a sees };
}

/// The descriptor of an open relation.
fn copied(one: &OpenRelation, alloc: Global) -> Result<Option<Descriptor>, Refusal>
    ensures found { IfOk result (λ d. d ≡ Some one.now.descriptor) }
    ensures wants { IfErr result (λ r. r ≡ Refusal.NoMemory) }
{
    match one.descriptor.copy(alloc) {
        Ok(descriptor) => Ok(Some(descriptor)),
        Err(_) => Err(Refusal::NoMemory),
    }
}

/// Whether one of the savepoints has the name.
fn has_named(points: &[Savepoint], name: &Str) -> bool
    ensures { result ≡ list_any (λ p. bytes_eq p.name name.now) points.now }
{
    points.iter().any(|point| point.name == *name)
}
