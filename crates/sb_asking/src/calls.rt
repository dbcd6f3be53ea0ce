//! Calls of an attachment, with their finds answered.

ghost use Rattle.std.specs.Prelude.{◌≡◌, ◌⊎◌, ◌++◌, ◌∷◌, [], List, OnOk, IfOk, IfErr};
ghost use Rattle.sb_relation.specs.Content.{Content};
ghost use Rattle.sb_ctx.specs.AttachAnswers.{Holds};
ghost use Rattle.sb_drive.specs.AttachCalls.{Fits, IsReading};
ghost use Rattle.sb_drive.specs.Slots.{Slots, owned};
ghost use Rattle.sb_drive.specs.Spaces.{Leaves, Wanted};
ghost use Rattle.sb_registry.specs.Live.{IsLiveRule};
ghost use Rattle.sb_registry.specs.Runs.{IsNewFor, IsSound, Looks, Works};
ghost use Rattle.sb_opened.specs.Standing.{StandRules};
ghost use Rattle.sb_opened.specs.Tables.{Kept, Tables, db_of};
ghost use Rattle.sb_opened.specs.Opened.{IsDurable};
ghost use Rattle.sb_opened.specs.Lacking.{WhereShort};
ghost use Rattle.sb_asking.specs.Calls.{CostsOver, IsAsked, IsFinal, LacksOver, knowing};

use crate::finds::find_keys;
use sb_ctx::{AttachCall, Ctx, Instance, Keys, Move};
use sb_drive::{PageSpace, SpaceFault};
use sb_opened::Place;
use sb_registry::Boxes;
use sb_value::{Names, Str, Tuple};
use std::alloc::{AllocError, Global};

/// A find, and the record keys that it is answered with.
#[derive(Drop)]
struct Answer {
    relation: Str,
    columns: Names,
    values: Tuple,
    keys: Keys,
}

/// Makes a call of a live attachment, and makes it again with each find answered by the rows of the relations, until it
/// ends. Its pages are read anew each time, since a find may make the space give up what it held.
pub fn ask<S: PageSpace, B: Boxes>(
    space: &mut S,
    alloc: Global,
    boxes: &B,
    place: Place,
    inst: &Instance,
    call: &AttachCall,
) -> Result<Move, SpaceFault>
    requires ready { S.is_ready space.old }
    requires owner { place.owner ≡ 2 }
    requires live { IsLiveRule (B.meanings boxes.now) inst.now }
    requires fits { (live : IsLiveRule (B.meanings boxes.now) inst.now) → Fits live.box inst.now call.now }

    ensures asked { IfOk result (λ move. (live : IsLiveRule (B.meanings boxes.now) inst.now) (want : Wanted) (s : Slots) (kept : List Kept)
        → S.has want s space.old → Tables (B.meanings boxes.now) IsDurable place.root s kept
        → Leaves S.has inst.now.owner want s space.new
        (λ after. IsAsked live.box inst.now call.now (db_of kept) (owned s inst.now.owner) after move)) }
    ensures ends { IfOk result (IsFinal call.now) }
    ensures works { Works S.has S.leads S.fails S.durable S.total inst.now.owner space.old space.new result }
    ensures looks { IsReading call.now → Looks S.has S.leads S.fails space.old space.new result }
    ensures undamaged { IfErr result (λ e. (live : IsLiveRule (B.meanings boxes.now) inst.now) (want : Wanted) (s : Slots) (kept : List Kept)
        (content : Content) → S.has want s space.old → Tables (B.meanings boxes.now) IsDurable place.root s kept
        → StandRules (B.meanings boxes.now) IsDurable (db_of kept) kept
        → Holds live.box inst.now (owned s inst.now.owner) content → IsSound e) }
    ensures undamaged_new { IfErr result (λ e. (live : IsLiveRule (B.meanings boxes.now) inst.now) (want : Wanted) (s : Slots) (kept : List Kept)
        → S.has want s space.old → Tables (B.meanings boxes.now) IsDurable place.root s kept
        → StandRules (B.meanings boxes.now) IsDurable (db_of kept) kept
        → IsNewFor live.box inst.now call.now (owned s inst.now.owner) → IsSound e) }
    ensures full { IfErr result (λ e. (live : IsLiveRule (B.meanings boxes.now) inst.now) (want : Wanted) (s : Slots) (kept : List Kept)
        → S.has want s space.old → Tables (B.meanings boxes.now) IsDurable place.root s kept
        → WhereShort e (LacksOver live.box inst.now call.now (db_of kept) s)) }
    ensures costs { (live : IsLiveRule (B.meanings boxes.now) inst.now) (want : Wanted) (s : Slots) (kept : List Kept) → S.has want s space.old
        → Tables (B.meanings boxes.now) IsDurable place.root s kept
        → S.leads 0 space.old space.new ⊎ CostsOver S.leads live.box inst.now call.now (db_of kept) s space.old space.new }
    ensures ready { S.is_ready space.new }
{
    let mut answers = Vec::new(alloc);
    'finds: loop {
        let mut ctx = ctx_of(alloc, &answers)?;
        let made = boxes.run_attachment(space, alloc, inst, call, &mut ctx);
        drop(ctx);
        let made = made?;
        match made {
            Move::Find {
                relation,
                columns,
                values,
            } => {
                let keys = find_keys(space, alloc, boxes, place, &relation, &columns, &values)?;
                let answer = Answer {
                    relation,
                    columns,
                    values,
                    keys,
                };
                add_answer(&mut answers, answer)?;
            }
            end => return Ok(end),
        }
    }
}

fn add_answer(answers: &mut Vec<Answer>, answer: Answer) -> Result<(), AllocError>
    ensures { OnOk result (answers.new.items ≡ answers.old.items ++ answer ∷ []) }
{
    answers.push(answer)?;
    Ok(())
}

/// A Ctx without pages that knows these answers.
fn ctx_of(alloc: Global, answers: &[Answer]) -> Result<Ctx, AllocError>
    ensures { IfOk result (λ ctx. ctx ≡ knowing answers.now) }
{
    let Some((answer, others)) = answers.split_first() else {
        return Ok(Ctx::new(alloc));
    };
    let mut ctx = ctx_of(alloc, others)?;
    ctx.give_found(
        &answer.relation,
        &answer.columns,
        &answer.values,
        &answer.keys,
    )?;
    Ok(ctx)
}
