//! An attachment that counts the rows in a page.

ghost use Rattle.std.specs.Prelude.{◌≡◌, ◌∷◌, [], pos, IfOk};
ghost use Rattle.sb_foreign.specs.Counts.{count, count_in, stepped, Steps};

use sb_ctx::{Attachment, Ctx, Instance, Keys, Move};
use sb_relation::{Change, Sums};
use sb_value::{Bytes, RecKey, Schema, Tuple};
use std::alloc::{AllocError, Global};

/// More rows than a relation has.
const MOST_ROWS: u64 = 1 << 48;

/// The attachment of code 1002: how many rows there are, in the first 8 bytes of its one page, the highest byte first.
#[derive(Drop)]
pub struct Count {}

/// What becomes of a count.
#[derive(Clone, Copy, Drop)]
enum Step {
    Up,
    Down,
}

impl Attachment for Count {
    ghost attachment = { λ _. count };

    fn code(&self) -> u16 {
        1002
    }

    fn fits(&self, _schema: &Schema, _desc: &Bytes) -> bool {
        true
    }

    fn prepare(&self, _alloc: Global, _ctx: &mut Ctx, _inst: &Instance) -> Move {
        Move::Done
    }

    fn on_build(
        &self,
        _alloc: Global,
        ctx: &mut Ctx,
        inst: &Instance,
        _key: &RecKey,
        _tuple: &Tuple,
    ) -> Move {
        recount(ctx, inst.root, Step::Up)
    }

    fn on_change(&self, _alloc: Global, ctx: &mut Ctx, inst: &Instance, change: &Change) -> Move {
        match change {
            Change::Insert { .. } => recount(ctx, inst.root, Step::Up),
            Change::Delete { .. } => recount(ctx, inst.root, Step::Down),
            Change::Update { .. } => Move::Done,
        }
    }

    fn late_check(&self, _alloc: Global, _ctx: &mut Ctx, _inst: &Instance, _entry: &Bytes) -> Move {
        Move::Done
    }

    fn next_entry(
        &self,
        _alloc: Global,
        _ctx: &mut Ctx,
        _inst: &Instance,
        _low: &RecKey,
        _after: Option<&(RecKey, RecKey)>,
    ) -> Move {
        Move::End
    }

    fn sums(&self, alloc: Global, ctx: &mut Ctx, inst: &Instance) -> Move {
        let Some(page) = ctx.page(inst.root) else {
            return Move::Need(inst.root);
        };
        let Some(rows) = count_in(page) else {
            return Move::Broken(inst.root);
        };
        match sums_of(alloc, rows) {
            Ok(sums) => Move::Sums(sums),
            Err(_) => Move::NoMemory,
        }
    }

    fn seek(&self, alloc: Global, ctx: &mut Ctx, inst: &Instance, _query: &Tuple) -> Move {
        let root = inst.root;
        let Some(page) = ctx.page(root) else {
            return Move::Need(root);
        };
        match count_in(page) {
            Some(_) => Move::Hits(Keys::new(alloc)),
            None => Move::Broken(root),
        }
    }
}

fn sums_of(alloc: Global, rows: u64) -> Result<Sums, AllocError>
    ensures { IfOk result (λ sums. sums ≡ pos rows ∷ []) }
{
    Ok(Sums::from_vec(vec![in alloc; i128::from(rows)]?))
}

/// The count of a page, where the page is one of a count.
fn count_in(page: &[u8]) -> Option<u64>
    ensures { result ≡ count_in page.now }
{
    match page {
        [a, b, c, d, e, f, g, h, ..] => {
            let rows = u64::from_be_bytes([*a, *b, *c, *d, *e, *f, *g, *h]);
            if rows <= MOST_ROWS { Some(rows) } else { None }
        }
        _ => None,
    }
}

fn stepped(rows: u64, step: Step) -> u64
    ensures { result ≡ stepped step rows }
{
    match step {
        Step::Up => rows.saturating_add(1),
        Step::Down => rows.saturating_sub(1),
    }
}

/// One row more or less in the page.
fn recount(ctx: &mut Ctx, root: u32, step: Step) -> Move
    ensures { Steps root step ctx.old ctx.new result }
{
    let Some(page) = ctx.page(root) else {
        return Move::Need(root);
    };
    let Some(rows) = count_in(page) else {
        return Move::Broken(root);
    };
    match ctx.edit(root, 0, &stepped(rows, step).to_be_bytes()) {
        Ok(()) => Move::Done,
        Err(_) => Move::NoMemory,
    }
}
