//! Changes of a page's entries.

ghost use Rattle.std.specs.Prelude.{◌≡◌, ◌+◌, ◌-◌, ◌<◌, ◌≤◌, [], Err, true, length, take, drop};
ghost use Rattle.std.specs.FinMap.Entries.{put};
ghost use Rattle.sb_bytes.specs.Field.{number_at};
ghost use Rattle.sb_node.specs.Entries.{key_cmp, place_of, size_of, without};
ghost use Rattle.sb_node.specs.Page.{Becomes, after_at, has_form, node_in, with_entries};
ghost use Rattle.sb_node.specs.Writes.{Wrote, spell, start_at};

use crate::entries::{after_of, start_of};
use crate::head::{COUNT_AT, HEAD_SIZE, USED_AT};
use sb_bytes::{get_u16, put_u16};

/// Puts an entry to its place. The page hasn't the key yet, and has room.
pub fn add(page: &mut [u8], i: u16, key: &[u8], value: &[u8])
    requires form { has_form page.old ≡ true }
    requires place { place_of key.now (node_in page.old).entries ≡ Err i }
    requires fits { (node_in page.old).head.used + size_of (key.now, value.now) ≤ 4072 }
    ensures { Becomes page.old page.new (with_entries (put key_cmp key.now value.now (node_in page.old).entries) (node_in page.old)) }
{
    let at = start_of(page, i);
    let count = get_u16(page, COUNT_AT);
    let used = get_u16(page, USED_AT);
    let size = 4 + key.len() + value.len();
    page.copy_within(at..HEAD_SIZE + used as usize, at + size);
    put_entry(page, at, key, value);
    put_u16(page, COUNT_AT, count + 1);
    put_u16(page, USED_AT, used + size as u16);
}

/// Takes the entry at a place out.
pub fn cut(page: &mut [u8], i: u16)
    requires form { has_form page.old ≡ true }
    requires within { i < (node_in page.old).head.count }
    ensures { Becomes page.old page.new (with_entries (without i (node_in page.old).entries) (node_in page.old)) }
{
    let (at, after) = span_of(page, i);
    let count = get_u16(page, COUNT_AT);
    let used = get_u16(page, USED_AT);
    page.copy_within(after..HEAD_SIZE + used as usize, at);
    put_u16(page, COUNT_AT, count - 1);
    put_u16(page, USED_AT, used - (after - at) as u16);
}

/// Moves the entries from a place on to another page, which has none.
pub fn move_tail(page: &mut [u8], i: u16, other: &mut [u8])
    requires form { has_form page.old ≡ true }
    requires within { i ≤ (node_in page.old).head.count }
    requires other { has_form other.old ≡ true }
    requires empty { (node_in other.old).entries ≡ [] }
    ensures front { Becomes page.old page.new (with_entries (take i (node_in page.old).entries) (node_in page.old)) }
    ensures tail { Becomes other.old other.new (with_entries (drop i (node_in page.old).entries) (node_in other.old)) }
{
    let at = start_of(page, i);
    let count = get_u16(page, COUNT_AT);
    let end = HEAD_SIZE + get_u16(page, USED_AT) as usize;
    put_bytes(other, HEAD_SIZE, &page[at..end]);
    put_u16(other, COUNT_AT, count - i);
    put_u16(other, USED_AT, (end - at) as u16);
    put_u16(page, COUNT_AT, i);
    put_u16(page, USED_AT, (at - HEAD_SIZE) as u16);
}

/// Where the entry at a place begins and ends.
fn span_of(page: &[u8], i: u16) -> (usize, usize)
    requires form { has_form page.now ≡ true }
    requires within { i < number_at 2 page.now 2 }
    ensures size { length page.now ≡ 4096 }
    ensures room { number_at 2 page.now 4 ≤ 4072 }
    ensures start { result.0 ≡ start_at page.now i 24 }
    ensures end { result.1 ≡ after_at page.now result.0 }
    ensures inside { result.1 ≤ 24 + number_at 2 page.now 4 }
    ensures low { 24 ≤ result.0 }
    ensures up { result.0 + 4 ≤ result.1 }
{
    let at = start_of(page, i);
    let after = after_of(page, at);
    (at, after)
}

fn put_entry(page: &mut [u8], at: usize, key: &[u8], value: &[u8])
    requires room { at + (4 + length key.now + length value.now) ≤ length page.old }
    requires key { length key.now < 65536 }
    requires value { length value.now < 65536 }
    ensures { Wrote page.old page.new at (spell key.now value.now) }
{
    put_u16(page, at, key.len() as u16);
    put_u16(page, at + 2, value.len() as u16);
    put_bytes(page, at + 4, key);
    put_bytes(page, at + 4 + key.len(), value);
}

fn put_bytes(page: &mut [u8], at: usize, bytes: &[u8])
    requires { at + length bytes.now ≤ length page.old }
    ensures { Wrote page.old page.new at bytes.now }
{
    page[at..at + bytes.len()].copy_from_slice(bytes);
}
