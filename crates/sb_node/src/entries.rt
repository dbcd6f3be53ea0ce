//! Reading of entries.

ghost use Rattle.std.specs.Prelude.{◌≡◌, ◌+◌, ◌<◌, ◌≤◌, Some, true, length, slice_get};
ghost use Rattle.sb_bytes.specs.Field.{number_at};
ghost use Rattle.sb_node.specs.Entries.{place_of};
ghost use Rattle.sb_node.specs.Page.{after_at, has_form, key_at, node_in, value_at};
ghost use Rattle.sb_node.specs.Writes.{start_at};

use crate::head::{COUNT_AT, HEAD_SIZE};
use sb_bytes::get_u16;
use std::cmp::Ordering;

/// The place of the entry with this key, counted from 0. Err where there is none: the number of lesser keys, which is
/// the place where it would stand.
pub fn place(page: &[u8], key: &[u8]) -> Result<u16, u16>
    requires { has_form page.now ≡ true }
    ensures { result ≡ place_of key.now (node_in page.now).entries }
{
    let count = get_u16(page, COUNT_AT);
    let mut at = HEAD_SIZE;
    for i in 0..count {
        let mine = key_of(page, at);
        match key.cmp(&mine) {
            Ordering::Less => return Err(i),
            Ordering::Equal => return Ok(i),
            Ordering::Greater => {}
        }
        at = after_of(page, at);
    }
    Err(count)
}

/// The key and the value of the entry at a place. It goes over those before it: to go over a page use `Entries`.
pub fn entry(page: &[u8], i: u16) -> (&[u8], &[u8])
    requires form { has_form page.now ≡ true }
    requires within { i < (node_in page.now).head.count }
    ensures { slice_get (node_in page.now).entries i ≡ Some (result.0.now, result.1.now) }
{
    let at = start_of(page, i);
    (key_of(page, at), value_of(page, at))
}

/// Where the entry at a place begins, or where the entries end.
pub(crate) fn start_of(page: &[u8], i: u16) -> usize
    requires form { has_form page.now ≡ true }
    requires within { i ≤ number_at 2 page.now 2 }
    ensures start { result ≡ start_at page.now i 24 }
    ensures inside { result ≤ 24 + number_at 2 page.now 4 }
    ensures low { 24 ≤ result }
{
    let mut at = HEAD_SIZE;
    for _entry in 0..i {
        at = after_of(page, at);
    }
    at
}

/// Where the entry ends that begins here.
#[tactic(auto, unfolding(crate::specs::Page::after_at))]
pub(crate) fn after_of(page: &[u8], at: usize) -> usize
    requires within { at + 4 ≤ length page.now }
    requires low { at < 65536 }
    ensures { result ≡ after_at page.now at }
{
    at + 4 + get_u16(page, at) as usize + get_u16(page, at + 2) as usize
}

#[tactic(auto, unfolding(crate::specs::Page::key_at, crate::specs::Page::after_at))]
pub(crate) fn key_of(page: &[u8], at: usize) -> &[u8]
    requires low { at + 4 ≤ length page.now }
    requires within { after_at page.now at ≤ length page.now }
    ensures { result.now ≡ key_at page.now at }
{
    let start = at + 4;
    let len = get_u16(page, at) as usize;
    &page[start..start + len]
}

#[tactic(auto, unfolding(crate::specs::Page::value_at, crate::specs::Page::after_at))]
pub(crate) fn value_of(page: &[u8], at: usize) -> &[u8]
    requires low { at + 4 ≤ length page.now }
    requires within { after_at page.now at ≤ length page.now }
    ensures { result.now ≡ value_at page.now at }
{
    let start = at + 4 + get_u16(page, at) as usize;
    let len = get_u16(page, at + 2) as usize;
    &page[start..start + len]
}
