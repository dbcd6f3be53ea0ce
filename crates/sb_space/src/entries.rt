//! Entries in a page of the owner table.

ghost use Rattle.std.specs.Prelude.{◌≡◌, ◌⊎◌, ◌+◌, ◌≤◌, ℕ, length};
ghost use Rattle.sb_bytes.specs.Field.{number_at};
ghost use Rattle.sb_space.specs.Instances.{AreCleared, entry_without};

use crate::owners::ENTRIES;
use sb_bytes::{get_u16, put_u16};

/// Each entry of the owner becomes nobody's.
pub(crate) fn clear_owner(table: &mut [u8], owner: u16)
    requires { length table.old ≡ 4096 }
    ensures { AreCleared owner table.old table.new }
{
    for i in 0..ENTRIES as usize {
        clear_entry(table, 2 * i, owner);
    }
}

/// The entry at a place becomes nobody's, if it is the owner's.
fn clear_entry(table: &mut [u8], at: usize, owner: u16)
    requires { at + 2 ≤ length table.old }
    ensures here { number_at 2 table.new at ≡ entry_without owner (number_at 2 table.old at) }
    ensures others { (place : ℕ) → (place + 2 ≤ at) ⊎ (at + 2 ≤ place) → number_at 2 table.new place ≡ number_at 2 table.old place }
{
    if get_u16(table, at) == owner {
        put_u16(table, at, 0);
    }
}
