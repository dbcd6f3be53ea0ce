//! Entries that no page keeps.

ghost use Rattle.sb_foreign.specs.Examples.{Watches};
ghost use Rattle.sb_foreign.specs.Legends.{legend};

use super::{
    Case, Event, Reply, begins_with, bytes, entry_from, first_other, hits, key, legend_instance,
    reply_of, sums_of_none,
};
use sb_ctx::{Attachment, Ctx, Instance};
use sb_foreign::Legend;
use sb_value::RecKey;
use std::alloc::Global;
use std::process::Abort;
use std::test::*;

/// What an entry is asked for by: the low key, the first part of the entry before, and the answer.
type Place = (&'static [u8], Option<u8>, Reply);

/// An entry of this first part.
fn entry(rt: &impl Abort, alloc: Global, first: u8) -> (RecKey, RecKey) {
    let first = RecKey::from_vec(vec![in alloc; first].expect(rt, "memory"));
    (first, key(alloc))
}

/// What is answered for the least entry from a key on, above the entry of another first part.
fn entry_above<A: Attachment>(
    rt: &impl Abort,
    attachment: &A,
    alloc: Global,
    inst: &Instance,
    low: &RecKey,
    after: u8,
) -> Reply
    requires { Watches (A.attachment attachment.now) inst.now }
{
    let after = entry(rt, alloc, after);
    let mut ctx = Ctx::new(alloc);
    let answer = attachment.next_entry(alloc, &mut ctx, inst, low, Some(&after));
    drop(ctx);
    drop(after);
    reply_of(answer)
}

/// One of the two.
fn next_entry<A: Attachment>(
    rt: &impl Abort,
    attachment: &A,
    alloc: Global,
    inst: &Instance,
    low: &[u8],
    after: Option<u8>,
) -> Reply
    requires { Watches (A.attachment attachment.now) inst.now }
{
    let low = RecKey::from_vec(bytes(rt, alloc, low));
    let answer = match after {
        Some(after) => entry_above(rt, attachment, alloc, inst, &low, after),
        None => entry_from(attachment, alloc, inst, &low),
    };
    drop(low);
    answer
}

/// The place of the first entry that is another one.
fn first_other_entry<A: Attachment>(
    rt: &impl Abort,
    attachment: &A,
    alloc: Global,
    inst: &Instance,
    places: &[Place],
) -> Option<usize>
    requires { Watches (A.attachment attachment.now) inst.now }
{
    for (i, (low, after, wanted)) in places.iter().enumerate() {
        if next_entry(rt, attachment, alloc, inst, low, *after) != *wanted {
            return Some(i);
        }
    }
    None
}

/// From the front and from an entry on, between the two, behind one and behind both.
const ENTRIES: [Place; 8] = [
    (&[], None, Reply::Entry(Some(1), 0)),
    (&[1], None, Reply::Entry(Some(1), 0)),
    (&[], Some(1), Reply::Entry(Some(2), 0)),
    (&[1, 0], None, Reply::Entry(Some(2), 0)),
    (&[2], Some(0), Reply::Entry(Some(2), 0)),
    (&[2], Some(2), Reply::End),
    (&[], Some(2), Reply::End),
    (&[2, 0], None, Reply::End),
];

const ADMITTED: [Case; 4] = [
    (Event::Stands, 9, &[], false, Reply::Done),
    (Event::Comes, 9, &[], false, Reply::Done),
    (Event::Changes, 9, &[], false, Reply::Done),
    (Event::Goes, 9, &[], false, Reply::Done),
];

/// Whether the least entry is the first one, and nothing is summed or found.
fn is_legend(rt: &impl Abort, alloc: Global, inst: &Instance) -> bool
    requires { Watches legend inst.now }
{
    let hits = hits(rt, &Legend {}, alloc, inst, &[]);
    begins_with(&Legend {}, alloc, inst, Reply::Entry(Some(1), 0))
        && sums_of_none(&Legend {}, alloc, inst) == Reply::Sum(None)
        && hits == Reply::Hits(0)
}

#[test]
fn two_entries_follow(rt: HostRuntime) {
    let alloc = rt.alloc();
    let inst = legend_instance(&rt, alloc);
    let is_legend = is_legend(&rt, alloc, &inst);
    let other = first_other(&rt, &Legend {}, alloc, &inst, &ADMITTED);
    let other_entry = first_other_entry(&rt, &Legend {}, alloc, &inst, &ENTRIES);
    drop(inst);
    assert_eq!(rt; (is_legend, other, other_entry), (true, None, None));
}
