//! Contents of new instances, built over the rows of their relation.

ghost use Rattle.std.specs.Prelude.{◌≡◌, [], false, true, IfErr, IfOk, OnOk};
ghost use Rattle.sb_rule.specs.declared.rule.Rule.{Rule as Policy};
ghost use Rattle.sb_rule.specs.Spelling.{SpellsRule};
ghost use Rattle.sb_relation.specs.Db.{Rows};
ghost use Rattle.sb_relation.specs.Keys.{is_record_key};
ghost use Rattle.sb_ctx.specs.Attachment.{MayHold};
ghost use Rattle.sb_ctx.specs.AttachAnswers.{first_content};
ghost use Rattle.sb_ctx.specs.declared.calls.AttachCall.TheVariants.{Prepare};
ghost use Rattle.sb_drive.specs.Spaces.{LeadsOn, LeadsWithin, Leaves};
ghost use Rattle.sb_registry.specs.Live.{IsLive, IsLiveRule};
ghost use Rattle.sb_standing.specs.Lacking.{IsShort, WhereShort};
ghost use Rattle.sb_standing.specs.Standing.{is_join};
ghost use Rattle.sb_standing.specs.Tables.{db_of, table_of};
ghost use Rattle.sb_tables.specs.Opened.{IsDurable};
ghost use Rattle.sb_tables.specs.Refusals.{HasFaultCause, HasRefusalCause, refusal_of};
ghost use Rattle.sb_tables.specs.Working.{extensions_of};
ghost use Rattle.sb_building.specs.Attaching.{HasBegun};
ghost use Rattle.sb_building.specs.Building.{HasNoLong, HoldsBuilt, IsBuilt, IsBuiltOver, IsNext, is_done};
ghost use Rattle.sb_building.specs.Costs.{row_cost, rows_cost};
ghost use Rattle.sb_building.specs.Instances.{HasNewPages, HoldsFirst, IsSite, Site};
ghost use Rattle.sb_building.specs.Lacking.{IsShortBuilding, bound_over, bound_with};

use sb_ctx::{AttachCall, Instance, Move};
use sb_drive::{PageSpace, SpaceFault};
use sb_registry::Boxes;
use sb_rows::next_row;
use sb_rule::Rule;
use sb_tables::{Place, ask, is_long_for};
use sb_value::{RecKey, Tuple};
use std::alloc::Global;

/// More rows than a relation has.
const MOST_ROWS: u64 = 1 << 48;

/// Makes the content of a new instance over no rows.
pub(crate) fn prepare<S: PageSpace, B: Boxes>(
    space: &mut S,
    alloc: Global,
    boxes: &B,
    place: Place,
    inst: &Instance,
) -> Result<(), SpaceFault>
    requires ready { S.is_ready space.old }
    requires owner { place.owner ≡ 2 }
    requires live { IsLiveRule (B.meanings boxes.now) inst.now }

    ensures prepared { OnOk result ((live : IsLiveRule (B.meanings boxes.now) inst.now) (x : Site) (rule : Policy)
        → IsSite S.has (B.meanings boxes.now) place.root x inst.now rule live.box space.old → HasNewPages x live.box inst.now
        → Leaves S.has inst.now.owner x.want x.slots space.new (HoldsFirst live.box inst.now rule (db_of x.kept))) }
    ensures refused { IfErr result (λ e. (live : IsLiveRule (B.meanings boxes.now) inst.now) (x : Site) (rule : Policy)
        → IsSite S.has (B.meanings boxes.now) place.root x inst.now rule live.box space.old → HasNewPages x live.box inst.now
        → HasRefusalCause S.fails (refusal_of e) space.new) }
    ensures full { IfErr result (λ e. (live : IsLiveRule (B.meanings boxes.now) inst.now) (x : Site) (rule : Policy)
        → IsSite S.has (B.meanings boxes.now) place.root x inst.now rule live.box space.old → HasNewPages x live.box inst.now
        → is_join rule ≡ false
        → WhereShort e (IsShort x.slots inst.now.owner (bound_over (extensions_of (B.meanings boxes.now)) (db_of x.kept) inst.now.relation rule []))) }
    ensures costs { (live : IsLiveRule (B.meanings boxes.now) inst.now) (x : Site) (rule : Policy)
        → IsSite S.has (B.meanings boxes.now) place.root x inst.now rule live.box space.old → HasNewPages x live.box inst.now
        → LeadsWithin S.leads (live.box.cost Prepare (first_content live.box inst.now rule (db_of x.kept)) (first_content live.box inst.now rule (db_of x.kept)))
        space.old space.new }
    ensures fault { IfErr result (λ e. HasFaultCause S.fails (refusal_of e) space.new) }
    ensures leads { LeadsOn S.leads space.old space.new }
    ensures ready { S.is_ready space.new }
{
    let call = AttachCall::Prepare;
    let made = ask(space, alloc, boxes, place, inst, &call);
    drop(call);
    match made {
        Ok(end) => {
            drop(end);
            Ok(())
        }
        Err(fault) => Err(fault),
    }
}

/// Adds all rows of the relation to the content, one after the other, up to one that isn't admitted. Whether all are admitted.
pub(crate) fn build_rows<S: PageSpace, B: Boxes>(
    space: &mut S,
    alloc: Global,
    boxes: &B,
    place: Place,
    table: &Instance,
    inst: &Instance,
    rule: &Rule,
) -> Result<bool, SpaceFault>
    requires ready { S.is_ready space.old }
    requires owner { place.owner ≡ 2 }
    requires live { IsLive (B.meanings boxes.now) table.now }
    requires live_rule { IsLiveRule (B.meanings boxes.now) inst.now }
    requires columns { inst.now.schema ≡ table.now.schema }
    requires spelled { SpellsRule inst.now.code inst.now.desc rule.now }

    ensures built { IfOk result (λ held. (live : IsLiveRule (B.meanings boxes.now) inst.now) (x : Site)
        → IsSite S.has (B.meanings boxes.now) place.root x inst.now rule.now live.box space.old → table.now ≡ table_of IsDurable x.one
        → HoldsBuilt x live.box inst.now rule.now []
        → Leaves S.has inst.now.owner x.want x.slots space.new
        (IsBuiltOver live.box inst.now rule.now (db_of x.kept) x.one.relation.rows held)) }
    ensures refused { IfErr result (λ e. (live : IsLiveRule (B.meanings boxes.now) inst.now) (x : Site)
        → IsSite S.has (B.meanings boxes.now) place.root x inst.now rule.now live.box space.old → table.now ≡ table_of IsDurable x.one
        → HoldsBuilt x live.box inst.now rule.now [] → HasNoLong x rule.now
        → HasRefusalCause S.fails (refusal_of e) space.new) }
    ensures full { IfErr result (λ e. (live : IsLiveRule (B.meanings boxes.now) inst.now) (x : Site)
        → HasBegun S.has (B.meanings boxes.now) place.root x inst.now rule.now live.box space.old → table.now ≡ table_of IsDurable x.one
        → is_join rule.now ≡ false
        → WhereShort e (IsShortBuilding S.has S.leads (extensions_of (B.meanings boxes.now)) x inst.now.relation rule.now space.new)) }
    ensures costs { (live : IsLiveRule (B.meanings boxes.now) inst.now) (x : Site)
        → IsSite S.has (B.meanings boxes.now) place.root x inst.now rule.now live.box space.old → table.now ≡ table_of IsDurable x.one
        → HoldsBuilt x live.box inst.now rule.now [] → is_join rule.now ≡ false
        → LeadsWithin S.leads (rows_cost (extensions_of (B.meanings boxes.now)) (db_of x.kept) inst.now.relation rule.now x.one.relation.rows) space.old space.new }
    ensures fault { IfErr result (λ e. HasFaultCause S.fails (refusal_of e) space.new) }
    ensures leads { LeadsOn S.leads space.old space.new }
    ensures ready { S.is_ready space.new }
{
    let mut last = None;
    'rows: for _ in 0..MOST_ROWS {
        let Some((key, row)) = next_row(space, alloc, boxes, table, last)? else {
            return Ok(true);
        };
        if is_long_for(&table.schema, &row, rule) {
            return Err(SpaceFault::Damaged { page: table.root });
        }
        let admitted = build_row(space, alloc, boxes, place, inst, &key, row)?;
        if !admitted {
            return Ok(false);
        }
        last = Some(key);
    }
    Err(SpaceFault::Damaged { page: table.root })
}

/// Adds one row to the content. Whether it is admitted.
fn build_row<S: PageSpace, B: Boxes>(
    space: &mut S,
    alloc: Global,
    boxes: &B,
    place: Place,
    inst: &Instance,
    key: &RecKey,
    row: Tuple,
) -> Result<bool, SpaceFault>
    requires ready { S.is_ready space.old }
    requires owner { place.owner ≡ 2 }
    requires live { IsLiveRule (B.meanings boxes.now) inst.now }
    requires row { (live : IsLiveRule (B.meanings boxes.now) inst.now) → MayHold live.box inst.now row }
    requires key { is_record_key key.now ≡ true }

    ensures built { IfOk result (λ admitted. (live : IsLiveRule (B.meanings boxes.now) inst.now) (x : Site) (rule : Policy) (built : Rows)
        → IsSite S.has (B.meanings boxes.now) place.root x inst.now rule live.box space.old
        → IsNext x.one.relation.rows built (key.now, row) → HoldsBuilt x live.box inst.now rule built
        → Leaves S.has inst.now.owner x.want x.slots space.new
        (IsBuilt live.box inst.now rule (db_of x.kept) built (key.now, row) admitted)) }
    ensures refused { IfErr result (λ e. (live : IsLiveRule (B.meanings boxes.now) inst.now) (x : Site) (rule : Policy) (built : Rows)
        → IsSite S.has (B.meanings boxes.now) place.root x inst.now rule live.box space.old → HoldsBuilt x live.box inst.now rule built
        → HasRefusalCause S.fails (refusal_of e) space.new) }
    ensures full { IfErr result (λ e. (live : IsLiveRule (B.meanings boxes.now) inst.now) (x : Site) (rule : Policy) (built : Rows)
        → IsSite S.has (B.meanings boxes.now) place.root x inst.now rule live.box space.old
        → IsNext x.one.relation.rows built (key.now, row) → HoldsBuilt x live.box inst.now rule built → is_join rule ≡ false
        → WhereShort e (IsShort x.slots inst.now.owner
        (bound_with (extensions_of (B.meanings boxes.now)) (db_of x.kept) inst.now.relation rule built (key.now, row)))) }
    ensures costs { (live : IsLiveRule (B.meanings boxes.now) inst.now) (x : Site) (rule : Policy) (built : Rows)
        → IsSite S.has (B.meanings boxes.now) place.root x inst.now rule live.box space.old
        → IsNext x.one.relation.rows built (key.now, row) → HoldsBuilt x live.box inst.now rule built
        → LeadsWithin S.leads (row_cost (extensions_of (B.meanings boxes.now)) (db_of x.kept) inst.now.relation rule built (key.now, row)) space.old space.new }
    ensures fault { IfErr result (λ e. HasFaultCause S.fails (refusal_of e) space.new) }
    ensures leads { LeadsOn S.leads space.old space.new }
    ensures ready { S.is_ready space.new }
{
    let copy = match key.copy() {
        Ok(copy) => copy,
        Err(fault) => {
            drop(row);
            return Err(SpaceFault::from(fault));
        }
    };
    let call = AttachCall::Build(copy, row);
    let made = ask(space, alloc, boxes, place, inst, &call);
    drop(call);
    match made {
        Ok(end) => {
            let admitted = is_done(&end);
            drop(end);
            Ok(admitted)
        }
        Err(fault) => Err(fault),
    }
}

fn is_done(made: &Move) -> bool
    ensures { result ≡ is_done made.now }
{
    matches!(made, Move::Done)
}
