//! The device calls that read a journal.

ghost use Rattle.std.specs.Prelude.{◌≡◌, ◌+◌, ◌<◌, ◌≤◌, ℕ, length, slice_index, IfOk};
ghost use Rattle.std.specs.Int.{to_be_bytes, w32};
ghost use Rattle.sb_disk.specs.Causes.{HasCause};
ghost use Rattle.sb_journal.specs.Opening.{OpenGates, LengthIs, IsShut, AllShut};

use sb_bytes::get_u32;
use sb_disk::{Disk, Failed};

/// What an open gate holds.
pub(crate) const OPEN: u8 = 0xA5;

/// The most gates that one call on the disk reads.
const PIECE: u64 = 4096;

/// How many gates from one on are open before the first that isn't.
pub(crate) fn count_open<D: Disk>(disk: &mut D, from: u64, to: u64) -> Result<u64, Failed>
    requires order { from ≤ to }
    requires len { to ≤ D.len disk.old }
    ensures open { IfOk result (OpenGates (D.told disk.old) from to) }
    ensures told { D.told disk.new ≡ D.told disk.old }
    ensures len { D.len disk.new ≡ D.len disk.old }
    ensures cause { HasCause (D.faults disk.old) (D.faults disk.new) result }
{
    let mut at = from;
    'pieces: while at < to {
        let len = PIECE.min(to - at);
        let count = count_piece(disk, at, len)?;
        at += count;
        if count < len {
            return Ok(at - from);
        }
    }
    Ok(at - from)
}

// The same of gates that are read at once.
fn count_piece<D: Disk>(disk: &mut D, at: u64, len: u64) -> Result<u64, Failed>
    requires few { len ≤ 4096 }
    requires len { at + len ≤ D.len disk.old }
    ensures open { IfOk result (OpenGates (D.told disk.old) at (at + len)) }
    ensures told { D.told disk.new ≡ D.told disk.old }
    ensures len { D.len disk.new ≡ D.len disk.old }
    ensures cause { HasCause (D.faults disk.old) (D.faults disk.new) result }
{
    let mut gates = [0u8; 4096];
    let piece = &mut gates[..len as usize];
    disk.read_at(at, piece)?;
    Ok(first_closed(piece) as u64)
}

// The place of the first gate that isn't open, or the end.
fn first_closed(piece: &[u8]) -> usize
    ensures most { result ≤ length piece.now }
    ensures open { (k : ℕ) → k < result → slice_index piece.now k ≡ 165 }
    ensures closed { result < length piece.now → ¬ (slice_index piece.now result ≡ 165) }
{
    for i in 0..piece.len() {
        if piece[i] != OPEN {
            return i;
        }
    }
    piece.len()
}

/// The length field at this place.
pub(crate) fn length_at<D: Disk>(disk: &mut D, at: u64) -> Result<u32, Failed>
    requires { at + 4 ≤ D.len disk.old }
    ensures length { IfOk result (LengthIs (D.told disk.old) at) }
    ensures told { D.told disk.new ≡ D.told disk.old }
    ensures len { D.len disk.new ≡ D.len disk.old }
    ensures cause { HasCause (D.faults disk.old) (D.faults disk.new) result }
{
    let mut field = [0u8; 4];
    disk.read_at(at, &mut field)?;
    Ok(number(&field))
}

// The number that these bytes spell.
fn number(bytes: &[u8]) -> u32
    requires { length bytes.now ≡ 4 }
    ensures { to_be_bytes w32 result ≡ bytes.now }
{
    get_u32(bytes, 0)
}

/// Whether no gate from one on is open.
pub(crate) fn all_shut<D: Disk>(disk: &mut D, from: u64, to: u64) -> Result<bool, Failed>
    requires order { from ≤ to }
    requires len { to ≤ D.len disk.old }
    ensures shut { IfOk result (AllShut (D.told disk.old) from to) }
    ensures told { D.told disk.new ≡ D.told disk.old }
    ensures len { D.len disk.new ≡ D.len disk.old }
    ensures cause { HasCause (D.faults disk.old) (D.faults disk.new) result }
{
    let mut at = from;
    'pieces: while at < to {
        let len = PIECE.min(to - at);
        if !is_piece_shut(disk, at, len)? {
            return Ok(false);
        }
        at += len;
    }
    Ok(true)
}

// The same of gates that are read at once.
fn is_piece_shut<D: Disk>(disk: &mut D, at: u64, len: u64) -> Result<bool, Failed>
    requires few { len ≤ 4096 }
    requires len { at + len ≤ D.len disk.old }
    ensures shut { IfOk result (AllShut (D.told disk.old) at (at + len)) }
    ensures told { D.told disk.new ≡ D.told disk.old }
    ensures len { D.len disk.new ≡ D.len disk.old }
    ensures cause { HasCause (D.faults disk.old) (D.faults disk.new) result }
{
    let mut gates = [0u8; 4096];
    let piece = &mut gates[..len as usize];
    disk.read_at(at, piece)?;
    Ok(is_shut(piece))
}

// Whether none of these gates is open.
fn is_shut(piece: &[u8]) -> bool
    ensures { IsShut piece.now result }
{
    for i in 0..piece.len() {
        if piece[i] == OPEN {
            return false;
        }
    }
    true
}
