//! An entry put into a page, or, where the page has no room for it, into two.

ghost use Rattle.std.specs.Prelude.{◌≡◌, ◌+◌, ◌≤◌, ◌<◌, [], length, None, true, false};
ghost use Rattle.std.specs.FinMap.Entries.{find, put};
ghost use Rattle.sb_node.specs.Entries.{key_cmp, size_of};
ghost use Rattle.sb_node.specs.Page.{Becomes, has_form, node_in, with_entries};
ghost use Rattle.sb_btree.specs.Halves.{Halves, halfway};

use sb_node::{Entries, add, move_tail, place, room};

/// Half of the bytes that a page has for entries.
const HALF: usize = 2036;

/// Puts an entry into a page that hasn't its key. False where it has no room, and then it stays as it is.
pub fn put_in(page: &mut [u8], key: &[u8], value: &[u8]) -> bool
    requires form { has_form page.old ≡ true }
    requires lacks { find key_cmp key.now (node_in page.old).entries ≡ None }
    requires short { length key.now + length value.now ≤ 4068 }
    ensures put { result ≡ true → Becomes page.old page.new (with_entries (put key_cmp key.now value.now (node_in page.old).entries) (node_in page.old)) }
    ensures full { result ≡ false → (page.new ≡ page.old) × (4072 < (node_in page.old).head.used + size_of (key.now, value.now)) }
{
    let Err(i) = place(page, key) else {
        unreachable!();
    };
    if (room(page) as usize) < 4 + key.len() + value.len() {
        return false;
    }
    add(page, i, key, value);
    true
}

/// How many entries at the front take half a page.
fn half_of(page: &[u8]) -> u16
    requires { has_form page.now ≡ true }
    ensures half { result ≡ halfway 2036 (node_in page.now).entries }
    ensures within { result ≤ (node_in page.now).head.count }
{
    let mut left = HALF;
    let mut count = 0;
    for (key, value) in Entries::new(page) {
        if left > 0 {
            left = left.saturating_sub(4 + key.len() + value.len());
            count += 1;
        }
    }
    count
}

/// Moves the greater half of the entries to another page, which has none, and puts the entry to its place in one of both.
/// The page has no room for it, and it takes at most half a page.
pub fn split(page: &mut [u8], other: &mut [u8], key: &[u8], value: &[u8])
    requires form { has_form page.old ≡ true }
    requires lacks { find key_cmp key.now (node_in page.old).entries ≡ None }
    requires full { 4072 < (node_in page.old).head.used + size_of (key.now, value.now) }
    requires small { size_of (key.now, value.now) ≤ 2036 }
    requires other { has_form other.old ≡ true }
    requires empty { (node_in other.old).entries ≡ [] }
    ensures { Halves page.old page.new other.old other.new key.now value.now }
{
    let Err(i) = place(page, key) else {
        unreachable!();
    };
    let half = half_of(page);
    if half <= i {
        move_tail(page, half, other);
        let _ = put_in(other, key, value);
    } else {
        move_tail(page, half - 1, other);
        let _ = put_in(page, key, value);
    }
}
