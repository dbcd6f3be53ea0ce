//! The bytes of pages against the layout, worked by hand.

ghost use Rattle.std.specs.Prelude.{◌≡◌, ◌+◌, ◌≤◌, length, true};
ghost use Rattle.sb_node.specs.Page.{has_form, node_in};

use sb_bytes::PAGE_LEN;
use sb_node::{
    Entries, Head, add, clear, cut, entry, form, head_counts, kind, move_tail, place, room,
    set_head,
};

/// A leaf with the entries "a" to the bytes 1 and 2, and "bc" to no bytes.
const LEAF: [u8; 37] = [
    2, 0, 0, 2, 0, 13, 0, 0, 1, 2, 0, 0, 0, 7, 0, 0, 0, 9, 5, 5, 5, 5, 5, 5, 0, 1, 0, 2, b'a', 1,
    2, 0, 2, 0, 0, b'b', b'c',
];

fn leaf() -> [u8; PAGE_LEN] {
    let mut page = [0u8; PAGE_LEN];
    page[..37].copy_from_slice(&LEAF);
    page
}

/// Adds an entry where its key isn't there yet and there is room.
fn put(page: &mut [u8], key: &[u8], value: &[u8]) -> bool
    requires form { has_form page.old ≡ true }
    requires small { length key.now + length value.now ≤ 4072 }
    ensures { has_form page.new ≡ true }
{
    if (room(page) as usize) < 4 + key.len() + value.len() {
        return false;
    }
    match place(page, key) {
        Ok(_) => false,
        Err(i) => {
            add(page, i, key, value);
            true
        }
    }
}

fn has_head_of_leaf(page: &[u8]) -> bool {
    let Some(head) = form(page) else {
        return false;
    };
    let counts = head.count == 2 && head.used == 13;
    let numbers = head.a == 258 && head.b == 7 && head.c == 9;
    head.kind == kind::TREE_LEAF && head.level == 0 && counts && numbers
}

/// Whether a page has the form, with two entries.
fn has_two(page: &[u8]) -> bool
    ensures form { result ≡ true → has_form page.now ≡ true }
    ensures two { result ≡ true → (node_in page.now).head.count ≡ 2 }
{
    match form(page) {
        Some(head) => head.count == 2,
        None => false,
    }
}

fn are_places_of_leaf(page: &[u8]) -> bool
    requires { has_form page.now ≡ true }
{
    let a = matches!(place(page, b"a"), Ok(0));
    let b = matches!(place(page, b"b"), Err(1));
    let bc = matches!(place(page, b"bc"), Ok(1));
    room(page) == 4059 && a && b && bc
}

#[test]
fn a_page_is_read(rt: HostRuntime) {
    let page = leaf();
    assert!(rt; has_head_of_leaf(&page) && has_two(&page) && are_places_of_leaf(&page));
}

fn is_entry(found: Option<(&[u8], &[u8])>, key: &[u8], value: &[u8]) -> bool {
    match found {
        Some((k, v)) => k == key && v == value,
        None => false,
    }
}

fn are_entries_of_leaf(page: &[u8]) -> bool
    requires { has_form page.now ≡ true }
{
    let mut walk = Entries::new(page);
    let first = is_entry(walk.next(), b"a", &[1, 2]);
    let second = is_entry(walk.next(), b"bc", b"");
    first && second && walk.next().is_none()
}

#[test]
fn entries_are_read(rt: HostRuntime) {
    let page = leaf();
    assert!(rt; has_two(&page) && are_entries_of_leaf(&page));
    assert!(rt; is_entry(Some(entry(&page, 1)), b"bc", b""));
}

/// Whether a page has these bytes from a place on.
fn holds(page: &[u8; PAGE_LEN], at: usize, bytes: &[u8]) -> bool
    requires { at ≤ 4096 }
{
    page[at..].starts_with(bytes)
}

/// Whether a page takes the entries of the leaf, each once.
fn takes_entries_of_leaf(page: &mut [u8]) -> bool
    requires { has_form page.old ≡ true }
{
    let both = put(page, b"bc", b"") && put(page, b"a", &[1, 2]);
    both && !put(page, b"a", b"")
}

#[test]
fn a_page_is_made(rt: HostRuntime) {
    let mut page = [5; PAGE_LEN];
    clear(&mut page, 3, 1);
    let head = Head {
        kind: 2,
        level: 0,
        count: 9,
        used: 9,
        a: 258,
        b: 7,
        c: 9,
    };
    set_head(&mut page, head);
    assert!(rt; takes_entries_of_leaf(&mut page) && holds(&page, 0, &LEAF));
}

#[test]
fn an_entry_is_cut(rt: HostRuntime) {
    let mut page = leaf();
    assert!(rt; has_two(&page));
    cut(&mut page, 0);
    assert!(rt; holds(&page, 0, &[2, 0, 0, 1, 0, 6]));
    assert!(rt; holds(&page, 18, b"\x05\x05\x05\x05\x05\x05\0\x02\0\0bc"));
    head_counts();
}

#[test]
fn a_tail_is_moved(rt: HostRuntime) {
    let mut page = leaf();
    let mut other = [0; PAGE_LEN];
    clear(&mut other, kind::TREE_LEAF, 0);
    assert!(rt; has_two(&page));
    move_tail(&mut page, 1, &mut other);
    assert!(rt; holds(&page, 0, &[2, 0, 0, 1, 0, 7]));
    assert!(rt; holds(&other, 0, &[2, 0, 0, 1, 0, 6]));
    assert!(rt; holds(&other, 24, b"\0\x02\0\0bc"));
}

/// Whether a page takes two entries, and is then full.
fn is_filled(page: &mut [u8]) -> bool
    requires { has_form page.old ≡ true }
{
    let both = put(page, b"", b"") && put(page, b"k", &[7; 4063]);
    both && room(page) == 0 && !put(page, b"l", b"")
}

#[test]
fn a_full_page_has_no_room(rt: HostRuntime) {
    let mut page = [0; PAGE_LEN];
    clear(&mut page, kind::HEAP, 0);
    assert!(rt; is_filled(&mut page));
}

#[test]
fn other_bytes_have_not_the_form(rt: HostRuntime) {
    let mut page = leaf();
    page[28] = b'x';
    assert!(rt; form(&page).is_none());
    assert!(rt; form(&LEAF).is_none());
    assert!(rt; matches!(form(&[0; PAGE_LEN]), Some(head) if head.count == 0));
}
