//! The content of an attachment, as its live box answers it. What was made for a call goes by a call of `drop`.

ghost use Rattle.std.specs.Prelude.{◌≡◌, ◌++◌, ◌∷◌, [], filter, find, option_copied, OnOk, IfOk, IfErr};
ghost use Rattle.sb_relation.specs.Images.{is_before};
ghost use Rattle.sb_ctx.specs.AttachAnswers.{is_entry_above};
ghost use Rattle.sb_registry.specs.Live.{IsLiveRule};
ghost use Rattle.sb_registry.specs.Runs.{IsSound, Looks};
ghost use Rattle.sb_reads.specs.Entries.{IsEntryOrEnd, IsSums, entry_in, is_beyond, is_risen, is_within, sums_in};
ghost use Rattle.sb_reads.specs.Stores.{OnContent};

use sb_asking::{Place, ask};
use sb_ctx::{AttachCall, Instance, Move};
use sb_drive::{PageSpace, SpaceFault};
use sb_registry::Boxes;
use sb_relation::{Entries, Image, Sums};
use sb_value::RecKey;
use std::alloc::{AllocError, Global};

/// All entries and sums.
pub(crate) fn image_of<S: PageSpace, B: Boxes>(
    space: &mut S,
    alloc: Global,
    boxes: &B,
    place: Place,
    inst: &Instance,
) -> Result<Image, SpaceFault>
    requires ready { S.is_ready space.old }
    requires owner { place.owner ≡ 2 }
    requires live { IsLiveRule (B.meanings boxes.now) inst.now }

    ensures entries { IfOk result (λ image. OnContent S.has (B.meanings boxes.now) place.root space.old inst.now
        (λ content. image.entries ≡ content.entries)) }
    ensures sums { IfOk result (λ image. OnContent S.has (B.meanings boxes.now) place.root space.old inst.now
        (λ content. image.sums ≡ content.sums)) }
    ensures undamaged { IfErr result (λ e. OnContent S.has (B.meanings boxes.now) place.root space.old inst.now (λ content. IsSound e)) }
    ensures looks { Looks S.has S.leads S.fails space.old space.new result }
    ensures ready { S.is_ready space.new }
{
    let low = least_code(alloc);
    let entries = entries_within(space, alloc, boxes, place, inst, &low, None)?;
    let sums = sums_of(space, alloc, boxes, place, inst)?;
    Ok(Image {
        entries: Entries::from_vec(entries),
        sums,
    })
}

/// The code that is below every other.
fn least_code(alloc: Global) -> RecKey
    ensures { result ≡ [] }
{
    RecKey::from_vec(Vec::new(alloc))
}

/// The entries from a low code to a high one, or to the last one, in rising order. Whether there are more is asked anew
/// behind each one.
pub(crate) fn entries_within<S: PageSpace, B: Boxes>(
    space: &mut S,
    alloc: Global,
    boxes: &B,
    place: Place,
    inst: &Instance,
    low: &RecKey,
    high: Option<&RecKey>,
) -> Result<Vec<(RecKey, RecKey)>, SpaceFault>
    requires ready { S.is_ready space.old }
    requires owner { place.owner ≡ 2 }
    requires live { IsLiveRule (B.meanings boxes.now) inst.now }

    ensures entries { IfOk result (λ found. OnContent S.has (B.meanings boxes.now) place.root space.old inst.now
        (λ content. found.items ≡ filter (is_within low.now (option_copied high.entry)) content.entries)) }
    ensures undamaged { IfErr result (λ e. OnContent S.has (B.meanings boxes.now) place.root space.old inst.now (λ content. IsSound e)) }
    ensures looks { Looks S.has S.leads S.fails space.old space.new result }
    ensures ready { S.is_ready space.new }
{
    let mut found = Vec::new(alloc);
    let mut last = None;
    'entries: loop {
        let Some(entry) = next_entry(space, alloc, boxes, place, inst, low, last)? else {
            return Ok(found);
        };
        if is_beyond(high, &entry.0) {
            return Ok(found);
        }
        last = Some(copy_entry(&entry)?);
        add_entry(&mut found, entry)?;
    }
}

fn add_entry(found: &mut Vec<(RecKey, RecKey)>, entry: (RecKey, RecKey)) -> Result<(), AllocError>
    ensures { OnOk result (found.new.items ≡ found.old.items ++ entry ∷ []) }
{
    found.push(entry)?;
    Ok(())
}

fn is_beyond(high: Option<&RecKey>, code: &RecKey) -> bool
    ensures { result ≡ is_beyond (option_copied high.entry) code.now }
{
    match high {
        Some(high) => *high < *code,
        None => false,
    }
}

fn copy_entry(entry: &(RecKey, RecKey)) -> Result<(RecKey, RecKey), AllocError>
    ensures { IfOk result (λ copy. copy ≡ entry.now) }
{
    Ok((entry.0.copy()?, entry.1.copy()?))
}

/// The first entry whose code isn't below the low one, and which is behind another where that is given. Where the box
/// answers one that isn't, the root is damaged.
fn next_entry<S: PageSpace, B: Boxes>(
    space: &mut S,
    alloc: Global,
    boxes: &B,
    place: Place,
    inst: &Instance,
    low: &RecKey,
    after: Option<(RecKey, RecKey)>,
) -> Result<Option<(RecKey, RecKey)>, SpaceFault>
    requires ready { S.is_ready space.old }
    requires owner { place.owner ≡ 2 }
    requires live { IsLiveRule (B.meanings boxes.now) inst.now }

    ensures entry { IfOk result (λ entry. OnContent S.has (B.meanings boxes.now) place.root space.old inst.now
        (λ content. entry ≡ find (is_entry_above low.now after) content.entries)) }
    ensures undamaged { IfErr result (λ e. OnContent S.has (B.meanings boxes.now) place.root space.old inst.now (λ content. IsSound e)) }
    ensures looks { Looks S.has S.leads S.fails space.old space.new result }
    ensures ready { S.is_ready space.new }
{
    let copy = low.copy()?;
    let call = AttachCall::NextEntry(copy, after);
    let made = match ask(space, alloc, boxes, place, inst, &call) {
        Ok(made) => made,
        Err(fault) => {
            drop(call);
            return Err(fault);
        }
    };
    let is_risen = is_risen(&call, &made);
    drop(call);
    let entry = entry_in(made);
    if !is_risen {
        drop(entry);
        return Err(SpaceFault::Damaged { page: inst.root });
    }
    Ok(entry)
}

/// Whether an entry that is answered to a read of the next one is behind the one of the call.
fn is_risen(call: &AttachCall, made: &Move) -> bool
    ensures { result ≡ is_risen call.now made.now }
{
    match (call, made) {
        (AttachCall::NextEntry(_, Some(after)), Move::Entry(first, second)) => {
            is_before(after, first, second)
        }
        _ => true,
    }
}

fn is_before(entry: &(RecKey, RecKey), first: &RecKey, second: &RecKey) -> bool
    ensures { result ≡ is_before entry.now (first.now, second.now) }
{
    entry.0.cmp(first).then(entry.1.cmp(second)).is_lt()
}

fn entry_in(made: Move) -> Option<(RecKey, RecKey)>
    requires { IsEntryOrEnd made }
    ensures { result ≡ entry_in made }
{
    match made {
        Move::Entry(first, second) => Some((first, second)),
        Move::End => None,
        _ => unreachable!(),
    }
}

/// The counts and the sums.
fn sums_of<S: PageSpace, B: Boxes>(
    space: &mut S,
    alloc: Global,
    boxes: &B,
    place: Place,
    inst: &Instance,
) -> Result<Sums, SpaceFault>
    requires ready { S.is_ready space.old }
    requires owner { place.owner ≡ 2 }
    requires live { IsLiveRule (B.meanings boxes.now) inst.now }

    ensures sums { IfOk result (λ sums. OnContent S.has (B.meanings boxes.now) place.root space.old inst.now
        (λ content. sums ≡ content.sums)) }
    ensures undamaged { IfErr result (λ e. OnContent S.has (B.meanings boxes.now) place.root space.old inst.now (λ content. IsSound e)) }
    ensures looks { Looks S.has S.leads S.fails space.old space.new result }
    ensures ready { S.is_ready space.new }
{
    let call = AttachCall::Sums;
    let asked = ask(space, alloc, boxes, place, inst, &call);
    drop(call);
    let made = asked?;
    Ok(sums_in(made))
}

fn sums_in(made: Move) -> Sums
    requires { IsSums made }
    ensures { result ≡ sums_in made }
{
    match made {
        Move::Sums(sums) => sums,
        _ => unreachable!(),
    }
}
