//! The head of a page, and its form.

ghost use Rattle.std.specs.Prelude.{◌≡◌, ◌+◌, ◌-◌, ◌≤◌, Some, None, true, length, is_some, option_map, IfSome};
ghost use Rattle.sb_node.specs.Page.{Becomes, empty_node, has_form, head_in, is_above, is_filled, node_in, with_head};
ghost use Rattle.sb_node.specs.Entries.{is_below};
ghost use Rattle.sb_node.specs.Writes.{HasFields};

use crate::entries::{after_of, key_of};
use sb_bytes::{PAGE_LEN, get_u16, get_u32, put_u16, put_u32};

/// The bytes that a page has for entries.
pub const CAPACITY: u16 = 4072;

pub(crate) const HEAD_SIZE: usize = 24;

pub(crate) const COUNT_AT: usize = 2;

pub(crate) const USED_AT: usize = 4;

const A_AT: usize = 6;

const B_AT: usize = 10;

const C_AT: usize = 14;

/// The fields in front of the entries. What `a`, `b` and `c` mean depends on the kind.
#[derive(Clone, Copy)]
pub struct Head {
    pub kind: u8,
    pub level: u8,
    /// How many entries the page has.
    pub count: u16,
    /// How many bytes they take.
    pub used: u16,
    pub a: u32,
    pub b: u32,
    pub c: u32,
}

/// The head of an entry page. None where the bytes aren't one; any kind and level will do.
pub fn form(page: &[u8]) -> Option<Head>
    ensures form { is_some result ≡ has_form page.now }
    ensures head { IfSome result (λ head. head ≡ (node_in page.now).head) }
{
    if has_form_of(page) {
        Some(read_head(page))
    } else {
        None
    }
}

/// How many bytes are left for further entries, each of which takes 4 bytes beside its key and value.
pub fn room(page: &[u8]) -> u16
    requires { has_form page.now ≡ true }
    ensures used { (node_in page.now).head.used ≤ 4072 }
    ensures left { result ≡ 4072 - (node_in page.now).head.used }
{
    CAPACITY - get_u16(page, USED_AT)
}

/// Writes kind, level and the three numbers. The count and the bytes in use stay those of the entries, whatever the
/// given head says.
pub fn set_head(page: &mut [u8], head: Head)
    requires { has_form page.old ≡ true }
    ensures { Becomes page.old page.new (with_head head (node_in page.old)) }
{
    put_fields(page, head);
}

/// Makes any 4,096 bytes a page without entries. The three numbers are 0.
pub fn clear(page: &mut [u8], kind: u8, level: u8)
    requires { length page.old ≡ 4096 }
    ensures { Becomes page.old page.new (empty_node kind level) }
{
    let head = Head {
        kind,
        level,
        count: 0,
        used: 0,
        a: 0,
        b: 0,
        c: 0,
    };
    put_fields(page, head);
    put_u16(page, COUNT_AT, head.count);
    put_u16(page, USED_AT, head.used);
}

fn put_fields(page: &mut [u8], head: Head)
    requires { 18 ≤ length page.old }
    ensures { HasFields page.old page.new head }
{
    page[0] = head.kind;
    page[1] = head.level;
    put_u32(page, A_AT, head.a);
    put_u32(page, B_AT, head.b);
    put_u32(page, C_AT, head.c);
}

#[tactic(auto, unfolding(crate::specs::Page::head_in))]
fn read_head(page: &[u8]) -> Head
    requires { length page.now ≡ 4096 }
    ensures { result ≡ head_in page.now }
{
    Head {
        kind: page[0],
        level: page[1],
        count: get_u16(page, COUNT_AT),
        used: get_u16(page, USED_AT),
        a: get_u32(page, A_AT),
        b: get_u32(page, B_AT),
        c: get_u32(page, C_AT),
    }
}

fn has_form_of(page: &[u8]) -> bool
    ensures { result ≡ has_form page.now }
{
    if page.len() != PAGE_LEN {
        return false;
    }
    let used = get_u16(page, USED_AT);
    if used > CAPACITY {
        return false;
    }
    fills(page, HEAD_SIZE + used as usize, get_u16(page, COUNT_AT))
}

/// Whether this many entries fill the page up to the end.
fn fills(page: &[u8], end: usize, count: u16) -> bool
    requires size { length page.now ≡ 4096 }
    requires end { end ≤ 4096 }
    ensures { result ≡ is_filled page.now end None count 24 }
{
    let mut at = HEAD_SIZE;
    let mut last: Option<&[u8]> = None;
    for _entry in 0..count {
        if at + 4 > end {
            return false;
        }
        let after = after_of(page, at);
        if after > end {
            return false;
        }
        let key = key_of(page, at);
        if !may_follow(last, key) {
            return false;
        }
        last = Some(key);
        at = after;
    }
    at == end
}

fn may_follow(last: Option<&[u8]>, key: &[u8]) -> bool
    ensures { result ≡ is_above (option_map (λ bytes. bytes.now) last.entry) key.now }
{
    match last {
        None => true,
        Some(last) => is_less(last, key),
    }
}

#[tactic(auto, unfolding(crate::specs::Entries::is_below))]
fn is_less(x: &[u8], y: &[u8]) -> bool
    ensures { result ≡ is_below x.now y.now }
{
    x.cmp(&y).is_lt()
}
