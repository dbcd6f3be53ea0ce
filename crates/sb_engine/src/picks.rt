//! Record keys that are picked.

ghost use Rattle.std.specs.Prelude.{◌≡◌, ◌++◌, OnOk};
ghost use Rattle.sb_engine.specs.Picks.{picks_of};

use sb_rule::Change;
use sb_value::RecKey;
use std::alloc::AllocError;

/// The codes of the storage methods that pick no keys: the tree's are the codes of its rows, and temp counts.
const TREE: u16 = 2;

const TEMP: u16 = 3;

/// Notes the record key that the storage method of this code picked for a change, if it did.
pub(crate) fn note_pick(
    picks: &mut Vec<RecKey>,
    method: u16,
    change: &Change,
) -> Result<(), AllocError>
    ensures { OnOk result (picks.new.items ≡ picks.old.items ++ picks_of method change.now) }
{
    if method == TREE || method == TEMP {
        return Ok(());
    }
    match change {
        Change::Insert { key, .. } | Change::Update { to: key, .. } => {
            let copy = key.copy()?;
            picks.push(copy)?;
            Ok(())
        }
        Change::Delete { .. } => Ok(()),
    }
}
