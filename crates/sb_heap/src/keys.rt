//! Record keys: a page in four bytes and a slot in two.

ghost use Rattle.std.specs.Prelude.{◌≡◌, ◌<◌, ◌++◌, length, IfOk, MatchOption, replicate};
ghost use Rattle.std.specs.Int.{bytes_high_first};
ghost use Rattle.sb_bytes.specs.Field.{number_at};
ghost use Rattle.sb_forms.specs.HeapPages.{record_key};
ghost use Rattle.sb_heap.specs.Answered.{IsLowPage, IsPartedInto};

use crate::page::copied;
use sb_bytes::{get_u32, put_u16, put_u32};
use sb_value::RecKey;
use std::alloc::{AllocError, Global};

/// The bytes of a record key.
const KEY_SIZE: usize = 6;

const SLOT_AT: usize = 4;

/// The bytes of a slot.
pub const SLOT_SIZE: usize = 2;

/// The bytes of a slot's number.
pub fn slot_bytes(slot: u16) -> [u8; 2]
    ensures { result ≡ bytes_high_first 2 slot }
{
    let mut bytes = [0; 2];
    put_u16(&mut bytes, 0, slot);
    bytes
}

/// The record key of a slot of a page.
pub fn key_of(alloc: Global, page: u32, slot: &[u8]) -> Result<RecKey, AllocError>
    ensures { IfOk result (λ key. key ≡ record_key page slot.now) }
{
    let mut front = [0; SLOT_AT];
    put_u32(&mut front, 0, page);
    let mut bytes = copied(alloc, &front)?;
    bytes.extend_from_slice(slot)?;
    Ok(RecKey::from_vec(bytes))
}

/// The page and the slot of a record key. None where it hasn't six bytes, as that of no row.
pub fn parts_of(key: &RecKey) -> Option<(u32, &[u8])>
    ensures { MatchOption result (length key.now ≡ 6 → ⊥) (λ parts. IsPartedInto key.now parts.0 parts.1.now) }
{
    halves(key.as_slice())
}

fn halves(bytes: &[u8]) -> Option<(u32, &[u8])>
    ensures { MatchOption result (length bytes.now ≡ 6 → ⊥) (λ parts. IsPartedInto bytes.now parts.0 parts.1.now) }
{
    if bytes.len() != KEY_SIZE {
        return None;
    }
    Some((get_u32(bytes, 0), &bytes[SLOT_AT..]))
}

/// The page of a low key: its first four bytes, and zeros where it has fewer.
pub fn page_at(low: &RecKey) -> u32
    ensures { IsLowPage low.now result }
{
    front_of(low.as_slice())
}

fn front_of(bytes: &[u8]) -> u32
    ensures { IsLowPage bytes.now result }
{
    let len = bytes.len().min(SLOT_AT);
    let mut front = [0; SLOT_AT];
    front[..len].copy_from_slice(&bytes[..len]);
    get_u32(&front, 0)
}
