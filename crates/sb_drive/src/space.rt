//! Spaces of pages: what a driver stands on, wherever the pages are.

ghost use Rattle.std.specs.Prelude.{◌≡◌, ◌≢◌, ◌+◌, ◌<◌, ◌≤◌, ℕ, Bool, IsTrue, [], IsOk, OnOk, OnErr, IfErr};
ghost use Rattle.sb_ctx.specs.View.{HoldsPart, dropped, edits_of, stored};
ghost use Rattle.sb_drive.specs.Slots.{AreWhole, Slots, owned};
ghost use Rattle.sb_drive.specs.Spaces.{IsAnswerFault, IsAskFault, IsStoreFault, IsFull, IsGift, IsGivenIn, Leaves, LeadsWithin, UnlessDown, Wanted};
ghost use Rattle.sb_drive.specs.declared.space.SpaceFault.TheVariants.{NoMemory};

use crate::turns::Ask;
use sb_ctx::Ctx;
use std::alloc::{AllocError, Global};
use thiserror::Error;

/// Why a call over a space of pages is refused. The numbers are those of pages, of bytes of the log, and of gates.
#[derive(Clone, Copy, Debug, PartialEq, Eq, Drop, Error)]
pub enum SpaceFault {
    #[error("a call on the disk has failed")]
    Fault,
    #[error("{used} of {total} pages are used")]
    DataFull { used: u32, total: u32 },
    #[error("{used} of {total} volatile pages are used")]
    TempFull { used: u32, total: u32 },
    #[error("{used} of {total} bytes of the log are used, and {need} more are needed")]
    LogFull { used: u64, need: u64, total: u64 },
    #[error("{used} of {total} gates are used")]
    GatesFull { used: u32, total: u32 },
    /// A box called this page broken.
    #[error("page {page} is damaged")]
    Damaged { page: u32 },
    #[error("an earlier call has failed")]
    Down,
    #[error("memory is wanting")]
    NoMemory,
}

impl From<AllocError> for SpaceFault {
    ghost from_gives = { λ _ e. e ≡ NoMemory };

    fn from(_error: AllocError) -> SpaceFault {
        SpaceFault::NoMemory
    }
}

/// Pages of several owners, in memory or in a store within a transaction.
pub trait PageSpace {
    ghost use Rattle.sb_drive.specs.declared.space.SpaceFault.{SpaceFault};

    /// It serves.
    ghost is_ready: { Self → Type 0 };

    /// These are the pages that a crash leaves, and the pages now, each with its owner.
    ghost has: { Wanted → Slots → Self → Type 0 };

    /// How many pages there are, and whether they outlast the run.
    ghost total: { Self → ℕ };

    ghost durable: { Self → Bool };

    /// How many pages, the first of them, it may take for itself. These show no bytes.
    ghost table: { Self → ℕ };

    /// What calls make of it that make so many changes: none where they make none.
    ghost leads: { ℕ → Self → Self → Type 0 };

    /// What was taken of its log, beside half of it, is no more than so many changes take.
    ghost spent: { ℕ → Self → Type 0 };

    /// What a call leaves that it refuses so.
    ghost fails: { SpaceFault → Self → Self → Type 0 };

    /// Drops the edits of the Ctx, and gives it what is asked for: of a page that isn't the owner's no bytes. A fresh page is
    /// the least one that is nobody's and isn't held as a fresh one.
    fn answer(&mut self, owner: u16, ctx: &mut Ctx, ask: Ask) -> Result<(), SpaceFault>
        requires ready { is_ready self.old }

        ensures given { OnOk result ((want : Wanted) (s : Slots) → has want s self.old
            → IsGivenIn (total self.old) s owner (dropped ctx.old) ask ctx.new) }
        ensures gift { OnOk result (IsGift (dropped ctx.old) ask ctx.new) }
        ensures kept { OnErr result (ctx.new ≡ dropped ctx.old) }
        ensures pages { UnlessDown result ((want : Wanted) (s : Slots) → has want s self.old → has want s self.new) }
        ensures undamaged { IfErr result IsAnswerFault }
        ensures looks { IfErr result (IsAskFault ask) }
        ensures full { IfErr result (λ e. (want : Wanted) (s : Slots) → has want s self.old
            → IsFull (durable self.old) (total self.old) s (dropped ctx.old) ask e) }
        ensures leads { leads 0 self.old self.new }
        ensures fails { IfErr result (λ e. fails e self.old self.new) }
        ensures ready { is_ready self.new };

    /// Stores the edits of the Ctx: taken pages become the owner's, and freed ones nobody's.
    fn store(&mut self, alloc: Global, owner: u16, ctx: &Ctx) -> Result<(), SpaceFault>
        requires ready { is_ready self.old }

        ensures pages { UnlessDown result ((want : Wanted) (s : Slots) → has want s self.old → HoldsPart ctx.now (owned s owner)
            → Leaves has owner want s self.new (λ after. OnOk result (after ≡ stored ctx.now (owned s owner)))) }
        ensures undamaged { IfErr result IsStoreFault }
        ensures leads { LeadsWithin leads (edits_of ctx.now) self.old self.new }
        ensures fails { IfErr result (λ e. fails e self.old self.new) }
        ensures ready { is_ready self.new };

    /// What no call changes.
    ghost stays: { (a : Self) → leads 0 a a };

    ghost goes_on: { (k l : ℕ) (a b c : Self) → leads k a b → leads l b c → leads (k + l) a c };

    ghost spends: { (n k : ℕ) (a b : Self) → leads k a b → spent n a → spent (n + k) b };

    ghost fails_on: { (e : SpaceFault) (a b c : Self) → leads 0 a b → fails e b c → fails e a c };

    /// Each page of an owner is whole.
    ghost whole: { (want : Wanted) (s : Slots) (a : Self) → has want s a → AreWhole s };

    /// There are at most 65,536 pages.
    ghost few: { (want : Wanted) (s : Slots) (a : Self) → has want s a → (n : ℕ) → 65536 ≤ n → (s n).0 ≡ 0 };

    /// A page that is somebody's has bytes, or is one that the space takes for itself.
    ghost tabled: { (want : Wanted) (s : Slots) (a : Self) → has want s a → (n : ℕ) → (s n).0 ≢ 0 → (s n).1 ≡ [] → n < table a };
}

/// Stores the edits of the Ctx. A call that only reads has none, and nothing is stored.
pub(crate) fn store_edits<S: PageSpace>(
    space: &mut S,
    alloc: Global,
    owner: u16,
    ctx: &Ctx,
    reading: bool,
) -> Result<(), SpaceFault>
    requires ready { S.is_ready space.old }
    requires clean { IsTrue reading → dropped ctx.now ≡ ctx.now }

    ensures same { IsTrue reading → space.new ≡ space.old }
    ensures never { IsTrue reading → IsOk result }
    ensures pages { UnlessDown result ((want : Wanted) (s : Slots) → S.has want s space.old → HoldsPart ctx.now (owned s owner)
        → Leaves S.has owner want s space.new (λ after. OnOk result (after ≡ stored ctx.now (owned s owner)))) }
    ensures undamaged { IfErr result IsStoreFault }
    ensures leads { LeadsWithin S.leads (edits_of ctx.now) space.old space.new }
    ensures fails { IfErr result (λ e. S.fails e space.old space.new) }
    ensures ready { S.is_ready space.new }
{
    if reading {
        return Ok(());
    }
    space.store(alloc, owner, ctx)
}
