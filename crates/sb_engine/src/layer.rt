//! An engine at work is what work on relations stands on. What isn't handed on goes by calls of `drop`.

ghost use Rattle.std.specs.Prelude.{◌≡◌, ◌⊎◌};
ghost use Rattle.sb_fold.specs.declared.refusal.Refusal.TheVariants as refusal;
ghost use Rattle.sb_engine.specs.Goings.{goes_on, puts_fit, same_extensions, stays, still_asked, still_done};
ghost use Rattle.sb_engine.specs.Licensed.{quiet_stop};
ghost use Rattle.sb_engine.specs.Refusals.{IsRefusedBy};
ghost use Rattle.sb_engine.specs.Working.{GoesOpen, MayAsk, MayDo, MayWish, IsServing, IsStoppedFor, StandsFor, StandsAsking, extensions_in};

use crate::asking::put_left;
use crate::failing::first_failing;
use crate::fitting::{prepare, prepare_all};
use crate::matching::keys_matching;
use crate::opening::open_at;
use crate::picks::note_pick;
use crate::refusals::refusal_of;
use crate::running::Running;
use crate::wishes::wish_at;
use sb_asking::{Verdict, ask_rule};
use sb_cascade::{Layer, Wish};
use sb_drive::PageSpace;
use sb_fold::Refusal;
use sb_registry::Boxes;
use sb_rule::{Action, Change};
use sb_value::{RecKey, Str};
use sb_wishes::{Outcome, carry_out};
use std::alloc::Global;

impl<B: Boxes, S: PageSpace> Layer for Running<'_, B, S> {
    ghost is_ready = { λ a. IsServing S.is_ready B.meanings a };

    ghost extensions = { λ a. extensions_in B.meanings a };

    ghost stands = { λ g a. StandsFor S.has S.spent B.meanings g a };

    ghost asks = { λ name c i g a. StandsAsking S.has S.spent (B.meanings a.boxes.now) a.place.root name c i g a.space.now a.work.now };

    ghost stopped = { λ r trail a. IsStoppedFor S.has S.spent S.leads S.fails S.table B.meanings r trail a };

    ghost failed = { λ a. IsRefusedBy S.fails refusal.Fault a.space.now };

    ghost may_do = { λ action a. MayDo a.work.now.opened.items action };

    ghost may_wish = { λ name wish a. MayWish a.work.now.opened.items name wish };

    ghost may_ask = { λ name c a. MayAsk a.work.now.opened.items name c };

    ghost leads = { λ a b. GoesOpen S.leads a b };

    ghost stops = { λ r g a quiet stands. quiet_stop S.has S.spent S.leads S.fails S.table B.meanings r g.trail a quiet stands.paid };

    ghost stops_asking = { λ r name c i g a quiet asks. quiet_stop S.has S.spent S.leads S.fails S.table B.meanings r g.trail a quiet asks.paid };

    ghost stays = { λ a. stays S.leads S.stays a };

    ghost goes_on = { λ a b c first second. goes_on S.leads S.goes_on a b c first second };

    ghost same = { λ a b leads. same_extensions B.meanings S.leads a b leads };

    ghost still = { λ action a b leads may. still_done action a.work.now.opened.items b.work.now.opened.items leads.opened may };

    ghost still_asks = { λ name c a b leads may. still_asked name c a.work.now.opened.items b.work.now.opened.items leads.opened may };

    ghost puts = { λ relation terms a may. puts_fit relation terms a.work.now.opened.items may };

    fn change_row(&mut self, alloc: Global, name: &Str, wish: &Wish) -> Result<Change, Refusal> {
        let Some(one) = open_at(&self.work.opened, name) else {
            unreachable!()
        };
        let method = one.table.code;
        let rules = one.descriptor.attachments.as_slice();
        match carry_out(self.space, alloc, self.boxes, &one.table, rules, wish) {
            Ok(Outcome::Made(change)) => {
                match note_pick(&mut self.work.picks, method, &change) {
                    Ok(()) => Ok(change),
                    Err(_) => {
                        drop(change);
                        Err(Refusal::NoMemory)
                    }
                }
            }
            Ok(Outcome::Refused(refusal)) => Err(refusal),
            Err(fault) => Err(refusal_of(fault)),
        }
    }

    fn ask(
        &mut self,
        alloc: Global,
        name: &Str,
        change: &Change,
        i: usize,
    ) -> Result<Option<Vec<Action>>, Refusal> {
        let Some(one) = open_at(&self.work.opened, name) else {
            unreachable!()
        };
        let Some(inst) = one.rules.get(i) else {
            return Ok(None);
        };
        let Some(attached) = one.descriptor.attachments.as_slice().get(i) else {
            unreachable!()
        };
        let Ok(label) = attached.name.copy() else {
            return Err(Refusal::NoMemory);
        };
        match ask_rule(self.space, alloc, self.boxes, self.place, inst, change) {
            Ok(Verdict::Admitted { now, late, checks }) => {
                let now = now.into_vec();
                match prepare_all(
                    self.space,
                    alloc,
                    self.boxes,
                    self.place,
                    &mut self.work.opened,
                    &now,
                ) {
                    Ok(()) => {
                        match put_left(&mut self.work.queue, alloc, name, label, late, checks) {
                            Ok(()) => Ok(Some(now)),
                            Err(_) => {
                                drop(now);
                                Err(Refusal::NoMemory)
                            }
                        }
                    }
                    Err(fault) => {
                        drop(label);
                        drop(late);
                        drop(checks);
                        drop(now);
                        Err(refusal_of(fault))
                    }
                }
            }
            Ok(Verdict::Vetoed) => Err(veto(name, label)),
            Err(fault) => {
                drop(label);
                Err(refusal_of(fault))
            }
        }
    }

    fn matching(&mut self, alloc: Global, action: &Action) -> Result<Vec<RecKey>, Refusal> {
        match keys_matching(
            self.space,
            alloc,
            self.boxes,
            self.place,
            &self.work.opened,
            action,
        ) {
            Ok(keys) => Ok(keys),
            Err(fault) => Err(refusal_of(fault)),
        }
    }

    fn wish_at(
        &mut self,
        alloc: Global,
        action: &Action,
        key: &RecKey,
    ) -> Result<Option<Wish>, Refusal> {
        match wish_at(
            self.space,
            alloc,
            self.boxes,
            self.place,
            &self.work.opened,
            action,
            key,
        ) {
            Ok(wish) => Ok(wish),
            Err(fault) => Err(refusal_of(fault)),
        }
    }

    fn next_waiting(&mut self, alloc: Global) -> Result<Option<Action>, Refusal> {
        let done = self.work.done;
        let Some(waiting) = self.work.queue.action(done) else {
            return Ok(None);
        };
        let Ok(action) = waiting.copy(alloc) else {
            return Err(Refusal::NoMemory);
        };
        match prepare(
            self.space,
            alloc,
            self.boxes,
            self.place,
            &mut self.work.opened,
            &action,
        ) {
            Ok(()) => {
                self.work.done = done + 1;
                Ok(Some(action))
            }
            Err(fault) => {
                drop(action);
                Err(refusal_of(fault))
            }
        }
    }

    fn first_failing(&mut self, alloc: Global) -> Result<Option<(Str, Str)>, Refusal> {
        match first_failing(self.space, alloc, self.boxes, self.place, &self.work.queue) {
            Ok(found) => Ok(found),
            Err(fault) => Err(refusal_of(fault)),
        }
    }
}

/// The refusal of a change that an attachment vetoes.
fn veto(relation: &Str, name: Str) -> Refusal
    ensures { (result ≡ refusal.Veto relation.now name) ⊎ (result ≡ refusal.NoMemory) }
{
    match relation.copy() {
        Ok(relation) => Refusal::Veto { relation, name },
        Err(_) => Refusal::NoMemory,
    }
}
