//! A space of pages that sees what its driver asks for and stores.

ghost use Rattle.std.specs.Prelude.{refl};
ghost use Rattle.sb_ctx.specs.Method.{IsInstance};
ghost use Rattle.sb_drive.specs.MethodCalls.{Fits};
ghost use Rattle.sb_drive.specs.Spaces.{LeadsOn};
ghost use Rattle.sb_bench.specs.Watched.{LeadsLent, LeadsLent-then};

use sb_ctx::{Ctx, Instance, MethodCall, Move, StorageMethod};
use sb_drive::{Ask, PageSpace, SpaceFault, run_method};
use std::alloc::Global;

/// How many pages are told apart.
const PAGES: usize = 64;

/// What driven calls came to.
#[derive(Clone, Copy, Debug, PartialEq, Eq)]
pub struct Totals {
    /// The calls that answered with a key.
    pub keys: u64,
    /// The changes of the store: pages that got an owner, other bytes, or no owner.
    pub changes: u64,
    /// The pages that a call asked for, at most.
    pub pages: u32,
    /// Whether a call asked for a page twice.
    pub twice: bool,
}

impl Totals {
    pub fn none() -> Totals {
        Totals {
            keys: 0,
            changes: 0,
            pages: 0,
            twice: false,
        }
    }

    /// These of more calls.
    pub fn with(self, more: Totals) -> Totals {
        Totals {
            keys: self.keys.saturating_add(more.keys),
            changes: self.changes.saturating_add(more.changes),
            pages: self.pages.max(more.pages),
            twice: self.twice || more.twice,
        }
    }
}

/// A space that is lent for one call, the pages that the call asked for, and what it comes to.
#[derive(Drop)]
struct Watched<'a, S: PageSpace> {
    space: &'a mut S,
    asked: [bool; PAGES],
    totals: Totals,
}

/// Notes a question. One for a page that isn't told apart counts as a second one.
fn note(asked: &mut [bool], totals: &mut Totals, ask: Ask) {
    let Ask::Page(n) = ask else {
        return;
    };
    let n = n as usize;
    totals.pages = totals.pages.saturating_add(1);
    if n >= asked.len() || asked[n] {
        totals.twice = true;
    } else {
        asked[n] = true;
    }
}

/// How many changes store what a call made of its pages, which were at most 64.
fn changes_in(ctx: &Ctx) -> u64 {
    let mut changes: u64 = 0;
    for i in 0..PAGES as u32 {
        let taken = matches!(ctx.fresh_given(i), Some((_, true)));
        let edited = ctx.edited(i).is_some();
        let freed = ctx.freed(i).is_some();
        let more = u64::from(taken) + u64::from(edited) + u64::from(freed);
        changes = changes.saturating_add(more);
    }
    changes
}

impl<S: PageSpace> PageSpace for Watched<'_, S> {
    ghost is_ready = { λ w. S.is_ready w.space.now };

    ghost has = { λ want s w. S.has want s w.space.now };

    ghost total = { λ w. S.total w.space.now };

    ghost durable = { λ w. S.durable w.space.now };

    ghost table = { λ w. S.table w.space.now };

    ghost leads = { λ k v w. LeadsLent S.leads k v.space w.space };

    ghost spent = { λ n w. S.spent n w.space.now };

    ghost fails = { λ e v w. S.fails e v.space.now w.space.now };

    fn answer(&mut self, owner: u16, ctx: &mut Ctx, ask: Ask) -> Result<(), SpaceFault> {
        note(&mut self.asked, &mut self.totals, ask);
        self.space.answer(owner, ctx, ask)
    }

    fn store(&mut self, alloc: Global, owner: u16, ctx: &Ctx) -> Result<(), SpaceFault> {
        self.totals.changes = changes_in(ctx);
        self.space.store(alloc, owner, ctx)
    }

    ghost stays = { λ w. record { same = refl; leads = S.stays w.space.now } };

    ghost goes_on = { λ k l u v w one two. LeadsLent-then S.leads S.goes_on k l u.space v.space w.space one two };

    ghost spends = { λ n k v w one spent. S.spends n k v.space.now w.space.now one.leads spent };

    ghost fails_on = { λ e u v w one fails. S.fails_on e u.space.now v.space.now w.space.now one.leads fails };

    ghost whole = { λ want s w has. S.whole want s w.space.now has };

    ghost few = { λ want s w has. S.few want s w.space.now has };

    ghost tabled = { λ want s w has. S.tabled want s w.space.now has };
}

/// Whether a call answered with a key.
fn has_key(end: Result<Move, SpaceFault>) -> Result<bool, SpaceFault> {
    let made = end?;
    let key = matches!(&made, Move::Key(_));
    drop(made);
    Ok(key)
}

/// Drives a call, and says what it comes to.
pub fn watch<S: PageSpace>(
    space: &mut S,
    alloc: Global,
    boxed: &dyn StorageMethod,
    inst: &Instance,
    call: &MethodCall,
) -> Result<Totals, SpaceFault>
    requires ready { S.is_ready space.old }
    requires inst { IsInstance (method boxed.now) inst.now }
    requires fits { Fits (method boxed.now) inst.now call.now }
    ensures ready { S.is_ready space.new }
    ensures leads { LeadsOn S.leads space.old space.new }
{
    let mut watched = Watched {
        space,
        asked: [false; PAGES],
        totals: Totals::none(),
    };
    let end = run_method(&mut watched, alloc, boxed, inst, call);
    let totals = watched.totals;
    let keys = u64::from(has_key(end)?);
    Ok(Totals { keys, ..totals })
}
