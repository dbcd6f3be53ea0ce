//! The names of all relations.

ghost use Rattle.std.specs.Prelude.{◌≡◌, ◌++◌, ◌∷◌, [], map, OnOk, IfOk, IfErr};
ghost use Rattle.sb_registry.specs.Runs.{IsSound, Looks};
ghost use Rattle.sb_standing.specs.Tables.{db_of};
ghost use Rattle.sb_reads.specs.Stores.{OnStore};

use sb_asking::{Place, next_relation};
use sb_drive::{PageSpace, SpaceFault};
use sb_registry::Boxes;
use sb_value::{Names, Str};
use std::alloc::{AllocError, Global};

/// The names of all relations, in their order.
pub(crate) fn all_names<S: PageSpace, B: Boxes>(
    space: &mut S,
    alloc: Global,
    boxes: &B,
    place: Place,
) -> Result<Names, SpaceFault>
    requires ready { S.is_ready space.old }
    requires owner { place.owner ≡ 2 }

    ensures names { IfOk result (λ names. OnStore S.has (B.meanings boxes.now) place.root space.old
        (λ kept. names ≡ map (λ e. e.0) (db_of kept))) }
    ensures undamaged { IfErr result (λ e. OnStore S.has (B.meanings boxes.now) place.root space.old (λ kept. IsSound e)) }
    ensures looks { Looks S.has S.leads S.fails space.old space.new result }
    ensures ready { S.is_ready space.new }
{
    let mut names = Vec::new(alloc);
    'names: loop {
        let Some(next) = next_relation(space, alloc, boxes, place, names.last())? else {
            return Ok(Names::from_vec(names));
        };
        add_name(&mut names, next.name)?;
    }
}

fn add_name(names: &mut Vec<Str>, name: Str) -> Result<(), AllocError>
    ensures { OnOk result (names.new.items ≡ names.old.items ++ name ∷ []) }
{
    names.push(name)?;
    Ok(())
}
