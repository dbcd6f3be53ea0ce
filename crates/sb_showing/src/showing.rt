//! The lines that make a relation of a store.

ghost use Rattle.std.specs.Prelude.{◌≡◌, IfErr, IfOk, Some, option_map};
ghost use Rattle.sb_relation.specs.Db.{relation_at};
ghost use Rattle.sb_plain.specs.Printing.{shown};
ghost use Rattle.sb_registry.specs.Boxes.{Meanings};
ghost use Rattle.sb_registry.specs.Runs.{IsSound, Looks};
ghost use Rattle.sb_opened.specs.Tables.{db_of};
ghost use Rattle.sb_opened.specs.Opened.{OverTables};

use crate::lines::lines_of;
use sb_drive::{PageSpace, SpaceFault};
use sb_opened::{Place, descriptor_at};
use sb_value::{Names, Str};
use std::alloc::Global;

/// The lines that make a relation: that of its creation, and one for each of its attachments in their order; mirrors come with
/// their main instances, and have none. `None` where the relation isn't there.
pub fn show<S: PageSpace>(
    space: &mut S,
    alloc: Global,
    place: Place,
    relation: &Str,
) -> Result<Option<Names>, SpaceFault>
    requires ready { S.is_ready space.old }
    requires owner { place.owner ≡ 2 }

    ensures lines { IfOk result (λ x. (m : Meanings) → OverTables S.has m place.root space.old
        (λ kept. x ≡ option_map (λ r. shown relation.now (Some r)) (relation_at (db_of kept) relation.now))) }
    ensures undamaged { IfErr result (λ e. (m : Meanings) → OverTables S.has m place.root space.old (λ kept. IsSound e)) }
    ensures looks { Looks S.has S.leads S.fails space.old space.new result }
    ensures ready { S.is_ready space.new }
{
    let Some(descriptor) = descriptor_at(space, alloc, place, relation)? else {
        return Ok(None);
    };
    let lines = lines_of(alloc, relation.as_str(), &descriptor)?;
    Ok(Some(lines))
}
