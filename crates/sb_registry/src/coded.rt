//! Lists of what bears a code.

ghost use Rattle.std.specs.Prelude.{◌≡◌, ◌==◌, ◌++◌, [], map, IfOk, OnErr};
ghost use Rattle.std.specs.List.{position, list_any};
ghost use Rattle.sb_registry.specs.Codes.{first_repeat, GoesIf};

use crate::boxes::Coded;
use std::alloc::AllocError;

/// Where the first one of this code stands.
pub fn place_of<B: Coded>(boxes: &[B], code: u16) -> Option<usize>
    ensures { result ≡ position (λ b. B.code_of b == code) boxes.now }
{
    boxes.iter().position(|boxed| boxed.own_code() == code)
}

/// Moves the first one of this code to the end of the other list. False where there is none.
pub fn move_over<B: Coded>(
    from: &mut Vec<B>,
    to: &mut Vec<B>,
    code: u16,
) -> Result<bool, AllocError>
    ensures ok { IfOk result (λ moved. GoesIf moved (λ b. B.code_of b == code)
        from.old.items to.old.items from.new.items to.new.items) }
    ensures from { OnErr result (from.new.items ≡ from.old.items) }
    ensures to { OnErr result (to.new.items ≡ to.old.items) }
{
    let Some(i) = place_of(from, code) else {
        return Ok(false);
    };
    to.reserve(1)?;
    let Ok(()) = to.push(from.remove(i)) else {
        unreachable!()
    };
    Ok(true)
}

/// The first code that stands before already, among these lists behind each other.
pub fn first_repeated<B: Coded>(live: &[B], spare: &[B]) -> Option<u16>
    ensures { result ≡ first_repeat [] (map (λ b. B.code_of b) (live.now ++ spare.now)) }
{
    match first_repeated_behind(&[], live) {
        Some(code) => Some(code),
        None => first_repeated_behind(live, spare),
    }
}

/// The first code that stands before already, among those in front or in the list itself.
fn first_repeated_behind<B: Coded>(front: &[B], boxes: &[B]) -> Option<u16>
    ensures { result ≡ first_repeat (map (λ b. B.code_of b) front.now) (map (λ b. B.code_of b) boxes.now) }
{
    for (i, boxed) in boxes.iter().enumerate() {
        let code = boxed.own_code();
        if has_code(front, code) || has_code(&boxes[..i], code) {
            return Some(code);
        }
    }
    None
}

/// Whether one of them has this code.
fn has_code<B: Coded>(boxes: &[B], code: u16) -> bool
    ensures { result ≡ list_any (λ b. B.code_of b == code) boxes.now }
{
    boxes.iter().any(|boxed| boxed.own_code() == code)
}
