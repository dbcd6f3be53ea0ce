//! The pages of a store as a space that boxed calls are driven over.

ghost use Rattle.sb_space.specs.SpaceLaws.{few_pages, goes_on, spends, stays, still_fails, table_pages, whole_pages};
ghost use Rattle.std.specs.Prelude.{true};
ghost use Rattle.sb_space.specs.Durable.{Leads, parts_in};
ghost use Rattle.sb_space.specs.Spent.{HasSpent};
ghost use Rattle.sb_space.specs.Table.{table_len};
ghost use Rattle.sb_space.specs.View.{lent};
ghost use Rattle.sb_space.specs.Works.{Fails, HasPages, Serves};

use crate::durable::Durable;
use sb_ctx::Ctx;
use sb_disk::Disk;
use sb_drive::{Ask, PageSpace, SpaceFault};
use std::alloc::Global;

impl<D: Disk> PageSpace for Durable<'_, D> {
    ghost is_ready = { λ d. Serves (lent d).tx (parts_in D.told D.len (lent d)) };

    ghost has = { λ want s d. HasPages want s (parts_in D.told D.len (lent d)) };

    ghost total = { λ d. d.store.now.pool.geometry.pages };

    ghost durable = { λ d. true };

    ghost table = { λ d. table_len d.store.now.pool.geometry.pages };

    ghost leads = { λ k d e. Leads D.told D.len D.faults k (lent d) (lent e) };

    ghost spent = { λ n d. HasSpent n d.store.now };

    ghost fails = { λ x d e. Fails D.faults x d.disk.now e.disk.now d.store.now e.store.now };

    ghost stays = { λ d. stays D.told D.len D.faults (lent d) };

    ghost goes_on = { λ k l a b c one two. goes_on D.told D.len D.faults k l (lent a) (lent b) (lent c) one two };

    ghost spends = { λ n k a b leads spent. spends D.told D.len D.faults n k (lent a) (lent b) leads spent };

    ghost fails_on = { λ x a b c leads fails. still_fails D.told D.len D.faults x (lent a) (lent b) (lent c) leads fails };

    ghost whole = { λ want s a has. whole_pages want s (parts_in D.told D.len (lent a)) has };

    ghost few = { λ want s a has. few_pages want s (parts_in D.told D.len (lent a)) has };

    ghost tabled = { λ want s a has. table_pages want s (parts_in D.told D.len (lent a)) has };

    fn answer(&mut self, owner: u16, ctx: &mut Ctx, ask: Ask) -> Result<(), SpaceFault> {
        ctx.drop_edits();
        match ask {
            Ask::Page(n) => self.give_page(owner, ctx, n),
            Ask::Fresh => self.give_fresh(owner, ctx),
            Ask::After(low) => self.give_after(owner, ctx, low),
        }
    }

    fn store(&mut self, _alloc: Global, owner: u16, ctx: &Ctx) -> Result<(), SpaceFault> {
        self.store_all(owner, ctx)
    }
}
