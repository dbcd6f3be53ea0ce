//! Records read from bytes.

ghost use Rattle.std.specs.Prelude.{◌≡◌, ◌↔◌, ◌<◌, ◌≤◌, ◌+◌, ℕ, ◌∷◌, IfSome, IsTrue};
ghost use Rattle.sb_log.specs.Records.{Record, Begins};
ghost use Rattle.sb_log.specs.Rec.{record_of, IsRead, Answers};

use crate::record::Rec;
use crate::tags;
use sb_bytes::{PAGE_LEN, get_u16, get_u32};

/// The record of this kind in front, from the bytes behind its first one, and its length with that one.
fn begin_of(rest: &[u8]) -> Option<(Rec<'_>, usize)>
    ensures { IsRead (1 ∷ rest.now) result }
{
    if rest.len() < 4 {
        return None;
    }
    let tx = get_u32(rest, 0);
    Some((Rec::Begin { tx }, 5))
}

fn image_of(rest: &[u8]) -> Option<(Rec<'_>, usize)>
    ensures { IsRead (2 ∷ rest.now) result }
{
    let end = 4 + PAGE_LEN;
    if rest.len() < end {
        return None;
    }
    let page = get_u32(rest, 0);
    let bytes = &rest[4..end];
    Some((Rec::Image { page, bytes }, 1 + end))
}

/// Whether so many bytes from there on are some, and lie within a page.
fn is_in_page(offset: u16, len: u16) -> bool
    ensures { IsTrue result ↔ ((0 < len) × (offset + len ≤ 4096)) }
{
    len > 0 && offset as usize + len as usize <= PAGE_LEN
}

fn change_of(rest: &[u8]) -> Option<(Rec<'_>, usize)>
    ensures { IsRead (3 ∷ rest.now) result }
{
    if rest.len() < 14 {
        return None;
    }
    let offset = get_u16(rest, 10);
    let len = get_u16(rest, 12);
    let middle = 14 + len as usize;
    let end = middle + len as usize;
    if !is_in_page(offset, len) || rest.len() < end {
        return None;
    }
    let change = Rec::Change {
        tx: get_u32(rest, 0),
        owner: get_u16(rest, 4),
        page: get_u32(rest, 6),
        offset,
        before: &rest[14..middle],
        after: &rest[middle..end],
    };
    Some((change, 1 + end))
}

fn back_of(rest: &[u8]) -> Option<(Rec<'_>, usize)>
    ensures { IsRead (4 ∷ rest.now) result }
{
    if rest.len() < 8 {
        return None;
    }
    let tx = get_u32(rest, 0);
    let n = get_u32(rest, 4);
    Some((Rec::Back { tx, n }, 9))
}

fn commit_of(rest: &[u8]) -> Option<(Rec<'_>, usize)>
    ensures { IsRead (5 ∷ rest.now) result }
{
    if rest.len() < 4 {
        return None;
    }
    let tx = get_u32(rest, 0);
    Some((Rec::Commit { tx }, 5))
}

fn front_of(b: &[u8]) -> Option<(Rec<'_>, usize)>
    ensures { IsRead b.now result }
{
    let [tag, rest @ ..] = b else {
        return None;
    };
    match *tag {
        tags::BEGIN => begin_of(rest),
        tags::IMAGE => image_of(rest),
        tags::CHANGE => change_of(rest),
        tags::BACK => back_of(rest),
        tags::COMMIT => commit_of(rest),
        _ => None,
    }
}

/// The record that the bytes begin with, and how many of them it takes. Other bytes may follow.
pub fn read_rec(b: &[u8]) -> Option<(Rec<'_>, usize)>
    // What is read is spelled there.
    ensures found { IfSome result (λ f. Begins b.now (record_of f.0) f.1) }

    // What is spelled there is read, whatever follows it.
    ensures only { (r : Record) (n : ℕ) → Begins b.now r n → Answers result r n }
{
    front_of(b)
}
