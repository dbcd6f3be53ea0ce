//! A storage method that picks its record keys.

ghost use Rattle.std.specs.Prelude.{◌≡◌, ◌<◌, ◌≤◌, ◌==◌, not, length, pos, ◌∷◌, [], IfOk, IfSome};
ghost use Rattle.std.specs.List.{take_while};
ghost use Rattle.std.specs.Option.{option_map};
ghost use Rattle.sb_value.specs.declared.value.Value.TheVariants.{Int as Number};
ghost use Rattle.sb_ctx.specs.MethodAnswers.{is_above, row_above};
ghost use Rattle.sb_foreign.specs.Strips.{strip, free_place, row_in, rows_from, strip_of, IsPlaced};

use sb_ctx::{Ctx, Instance, Move, StorageMethod};
use sb_value::{Column, Kind, Names, RecKey, Schema, Tuple, Value};
use std::alloc::{AllocError, Global};

/// How many rows a strip has room for.
const MOST_ROWS: usize = 100;

/// The storage method of code 1000: the byte at each of the first 100 places of the root is the number of a row, whose
/// record key is that place. A byte of 0 is free. It wants memory for other numbers and where all is full.
#[derive(Drop)]
pub struct Strip {}

impl StorageMethod for Strip {
    ghost method = { λ _. strip };

    fn code(&self) -> u16 {
        1000
    }

    fn durable(&self) -> bool {
        true
    }

    fn fits(&self, schema: &Schema, _key: &Names) -> bool {
        matches!(
            schema.as_slice(),
            [Column {
                kind: Kind::Int,
                ..
            }]
        )
    }

    fn prepare(&self, _alloc: Global, _ctx: &mut Ctx, _inst: &Instance) -> Move {
        Move::Done
    }

    fn insert(&self, alloc: Global, ctx: &mut Ctx, inst: &Instance, tuple: &Tuple) -> Move {
        let Some(byte) = byte_of(tuple) else {
            return Move::NoMemory;
        };
        let Some(page) = ctx.page(inst.root) else {
            return Move::Need(inst.root);
        };
        let Some(place) = find_free(page) else {
            return Move::NoMemory;
        };
        let Ok(key) = key_of(alloc, place) else {
            return Move::NoMemory;
        };
        match ctx.edit(inst.root, u16::from(place), &[byte]) {
            Ok(()) => Move::Key(key),
            Err(_) => Move::NoMemory,
        }
    }

    fn delete(&self, _alloc: Global, _ctx: &mut Ctx, _inst: &Instance, _key: &RecKey) -> Move {
        Move::NoMemory
    }

    fn update(
        &self,
        _alloc: Global,
        _ctx: &mut Ctx,
        _inst: &Instance,
        _key: &RecKey,
        _tuple: &Tuple,
    ) -> Move {
        Move::NoMemory
    }

    fn get(&self, _alloc: Global, _ctx: &mut Ctx, _inst: &Instance, _key: &RecKey) -> Move {
        Move::NoMemory
    }

    fn next(&self, alloc: Global, ctx: &mut Ctx, inst: &Instance, after: Option<&RecKey>) -> Move {
        let Some(page) = ctx.page(inst.root) else {
            return Move::Need(inst.root);
        };
        let Some(bytes) = page.get(..MOST_ROWS) else {
            return Move::NoMemory;
        };
        match next_row(alloc, bytes, after) {
            Ok(Some((key, row))) => Move::Row(key, row),
            Ok(None) => Move::End,
            Err(_) => Move::NoMemory,
        }
    }
}

/// The byte of a row that has a number from 1 to 255.
fn byte_of(row: &Tuple) -> Option<u8>
    ensures some { IfSome result (λ byte. 0 < byte) }
    ensures small { IfSome result (λ byte. byte < 256) }
    ensures row { IfSome result (λ byte. row.now ≡ Number (pos byte) ∷ []) }
{
    let [Value::Int(number)] = row.as_slice() else {
        return None;
    };
    match u8::try_from(*number) {
        Ok(byte) if byte != 0 => Some(byte),
        _ => None,
    }
}

/// The first free place.
fn find_free(page: &[u8]) -> Option<u8>
    ensures place { IfSome result (λ place. place ≡ free_place (strip_of page.now)) }
    ensures within { IfSome result (λ place. place < length (strip_of page.now)) }
{
    let place = count_taken(page.get(..MOST_ROWS)?);
    if place < MOST_ROWS {
        Some(place as u8)
    } else {
        None
    }
}

/// How many places at the front are taken.
fn count_taken(bytes: &[u8]) -> usize
    ensures { result ≡ length (take_while (λ byte. not (byte == 0)) bytes.now) }
{
    bytes.iter().take_while(|byte| **byte != 0).count()
}

fn key_of(alloc: Global, place: u8) -> Result<RecKey, AllocError>
    ensures { IfOk result (λ key. key ≡ place ∷ []) }
{
    Ok(RecKey::from_vec(vec![in alloc; place]?))
}

/// The row of the least key above this one, or of the least key.
fn next_row(
    alloc: Global,
    bytes: &[u8],
    low: Option<&RecKey>,
) -> Result<Option<(RecKey, Tuple)>, AllocError>
    requires { length bytes.now ≤ 100 }
    ensures placed { IfOk result (λ row. IfSome row IsPlaced) }
    ensures row { IfOk result (λ row. row ≡ row_above (option_map (λ key. key.now) low.entry) (rows_from 0 bytes.now)) }
{
    for (place, byte) in bytes.iter().enumerate() {
        if let Some(row) = row_above(alloc, place as u8, *byte, low)? {
            return Ok(Some(row));
        }
    }
    Ok(None)
}

/// The row of a place, where it is taken and its key is above this one.
fn row_above(
    alloc: Global,
    place: u8,
    byte: u8,
    low: Option<&RecKey>,
) -> Result<Option<(RecKey, Tuple)>, AllocError>
    ensures placed { IfOk result (λ row. IfSome row IsPlaced) }
    ensures row { IfOk result (λ row. row ≡ row_above (option_map (λ key. key.now) low.entry) (row_in place byte)) }
{
    let key = key_of(alloc, place)?;
    if byte == 0 || !is_above(low, &key) {
        return Ok(None);
    }
    let row = Tuple::from_vec(vec![in alloc; Value::Int(i64::from(byte))]?);
    Ok(Some((key, row)))
}

fn is_above(low: Option<&RecKey>, key: &RecKey) -> bool
    ensures { result ≡ is_above (option_map (λ key. key.now) low.entry) key.now }
{
    match low {
        None => true,
        Some(low) => low < key,
    }
}
