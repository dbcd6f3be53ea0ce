//! Records written to bytes.

ghost use Rattle.std.specs.Prelude.{◌≡◌, ◌+◌, ◌≤◌, ◌++◌, length, take};
ghost use Rattle.std.specs.Int.{to_be_bytes, w16, w32};
ghost use Rattle.sb_log.specs.Records.{spelling, IsRecord};
ghost use Rattle.sb_log.specs.Rec.{record_of};

use crate::record::Rec;
use crate::tags;
use sb_bytes::{put_u16, put_u32};

/// How many bytes the record takes.
pub fn rec_len(r: &Rec<'_>) -> usize
    requires { IsRecord (record_of r.now) }
    ensures { result ≡ length (spelling (record_of r.now)) }
{
    match r {
        Rec::Begin { .. } | Rec::Commit { .. } => 5,
        Rec::Back { .. } => 9,
        Rec::Image { bytes, .. } => 5 + bytes.len(),
        Rec::Change { before, after, .. } => 15 + before.len() + after.len(),
    }
}

/// Writes bytes at a place, and answers the place behind them.
fn add_bytes(out: &mut [u8], at: usize, bytes: &[u8]) -> usize
    requires { at + length bytes.now ≤ length out.old }
    ensures front { take result out.new ≡ take at out.old ++ bytes.now }
    ensures end { result ≡ at + length bytes.now }
{
    let end = at + bytes.len();
    out[at..end].copy_from_slice(bytes);
    end
}

/// The same for a number of two bytes.
fn add_u16(out: &mut [u8], at: usize, number: u16) -> usize
    requires { at + 2 ≤ length out.old }
    ensures front { take result out.new ≡ take at out.old ++ to_be_bytes w16 number }
    ensures end { result ≡ at + 2 }
{
    put_u16(out, at, number);
    at + 2
}

/// The same for a number of four bytes.
fn add_u32(out: &mut [u8], at: usize, number: u32) -> usize
    requires { at + 4 ≤ length out.old }
    ensures front { take result out.new ≡ take at out.old ++ to_be_bytes w32 number }
    ensures end { result ≡ at + 4 }
{
    put_u32(out, at, number);
    at + 4
}

/// Writes the record, and answers how many bytes it takes.
pub fn write_rec(r: &Rec<'_>, out: &mut [u8]) -> usize
    requires sound { IsRecord (record_of r.now) }
    requires room { length out.old ≡ length (spelling (record_of r.now)) }
    ensures written { out.new ≡ spelling (record_of r.now) }
    ensures len { result ≡ length (spelling (record_of r.now)) }
{
    match *r {
        Rec::Begin { tx } => {
            let at = add_bytes(out, 0, &[tags::BEGIN]);
            add_u32(out, at, tx)
        }
        Rec::Image { page, bytes } => {
            let at = add_bytes(out, 0, &[tags::IMAGE]);
            let at = add_u32(out, at, page);
            add_bytes(out, at, bytes)
        }
        Rec::Change {
            tx,
            owner,
            page,
            offset,
            before,
            after,
        } => {
            let at = add_bytes(out, 0, &[tags::CHANGE]);
            let at = add_u32(out, at, tx);
            let at = add_u16(out, at, owner);
            let at = add_u32(out, at, page);
            let at = add_u16(out, at, offset);
            let at = add_u16(out, at, after.len() as u16);
            let at = add_bytes(out, at, before);
            add_bytes(out, at, after)
        }
        Rec::Back { tx, n } => {
            let at = add_bytes(out, 0, &[tags::BACK]);
            let at = add_u32(out, at, tx);
            add_u32(out, at, n)
        }
        Rec::Commit { tx } => {
            let at = add_bytes(out, 0, &[tags::COMMIT]);
            add_u32(out, at, tx)
        }
    }
}
