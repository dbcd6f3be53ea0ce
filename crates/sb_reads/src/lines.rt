//! The lines that make a relation.

ghost use Rattle.std.specs.Prelude.{◌≡◌, IfOk, IfErr};
ghost use Rattle.sb_relation.specs.Db.{relation_at};
ghost use Rattle.sb_plain.specs.Printing.{shown};
ghost use Rattle.sb_registry.specs.Boxes.{Meanings};
ghost use Rattle.sb_registry.specs.Runs.{IsSound, Looks};
ghost use Rattle.sb_standing.specs.Tables.{db_of};
ghost use Rattle.sb_asking.specs.Opened.{OverTables};
ghost use Rattle.sb_reads.specs.Reads.{IsThere};

use sb_asking::Place;
use sb_drive::{PageSpace, SpaceFault};
use sb_showing::show;
use sb_value::{Names, Str};
use std::alloc::Global;

/// The lines that make a relation. Where it isn't there, the catalogue's root is called damaged.
pub(crate) fn making_lines<S: PageSpace>(
    space: &mut S,
    alloc: Global,
    place: Place,
    relation: &Str,
) -> Result<Names, SpaceFault>
    requires ready { S.is_ready space.old }
    requires owner { place.owner ≡ 2 }

    ensures lines { IfOk result (λ lines. (m : Meanings) → OverTables S.has m place.root space.old
        (λ kept. lines ≡ shown relation.now (relation_at (db_of kept) relation.now))) }
    ensures undamaged { IfErr result (λ e. (m : Meanings) → OverTables S.has m place.root space.old
        (λ kept. IsThere (db_of kept) relation.now → IsSound e)) }
    ensures looks { Looks S.has S.leads S.fails space.old space.new result }
    ensures ready { S.is_ready space.new }
{
    let Some(lines) = show(space, alloc, place, relation)? else {
        return Err(SpaceFault::Damaged { page: place.root });
    };
    Ok(lines)
}
