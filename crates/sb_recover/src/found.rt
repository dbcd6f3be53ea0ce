//! What the records of a log say.

ghost use Rattle.std.specs.Prelude.{◌∷◌, [], OnOk, IfOk};
ghost use Rattle.sb_log.specs.Records.{IsRecord};
ghost use Rattle.sb_log.specs.Rec.{record_of};
ghost use Rattle.sb_recover.specs.Changes.{limits_of, IsCut};
ghost use Rattle.sb_recover.specs.Frames.{texts};
ghost use Rattle.sb_recover.specs.Found.{Takes, TakesChunk, FoundIn};

use crate::change::{Change, count_of};
use crate::frames::{Frames, hold_image, no_frames};
use sb_log::{Rec, read_rec};
use std::alloc::{AllocError, Global};
use std::collections::{BTreeMap, BTreeSet};

/// What the records so far say: all changes, how many of each transaction's stand, which transactions are committed, and the first image of each page.
#[derive(Drop)]
pub(crate) struct Found<'a> {
    pub(crate) changes: Vec<Change<'a>>,
    pub(crate) counts: BTreeMap<u32, u64>,
    pub(crate) committed: BTreeSet<u32>,
    pub(crate) frames: Frames,
}

/// Leaves the first n of a transaction's changes.
fn cut(counts: &mut BTreeMap<u32, u64>, tx: u32, n: u32) -> Result<(), AllocError>
    ensures { OnOk result (IsCut tx n (limits_of counts.old) (limits_of counts.new)) }
{
    if (n as u64) < count_of(counts, tx) {
        counts.insert(tx, n as u64)?;
    }
    Ok(())
}

/// Takes one record more.
fn take_rec<'a>(alloc: Global, found: &mut Found<'a>, r: Rec<'a>) -> Result<(), AllocError>
    requires { IsRecord (record_of r) }
    ensures { OnOk result (Takes found.old found.new (record_of r.entry ∷ [])) }
{
    match r {
        Rec::Begin { .. } => {}
        Rec::Image { page, bytes } => hold_image(alloc, &mut found.frames, page, bytes)?,
        Rec::Change {
            tx,
            owner,
            page,
            offset,
            before,
            after,
        } => {
            let index = count_of(&found.counts, tx);
            found.counts.insert(tx, index.saturating_add(1))?;
            found.changes.push(Change {
                tx,
                owner,
                page,
                offset,
                before,
                after,
                index,
            })?;
        }
        Rec::Back { tx, n } => cut(&mut found.counts, tx, n)?,
        Rec::Commit { tx } => {
            found.committed.insert(tx)?;
        }
    }
    Ok(())
}

/// Takes the records of one chunk more.
fn take_chunk<'a>(alloc: Global, found: &mut Found<'a>, chunk: &'a [u8]) -> Result<(), AllocError>
    ensures { OnOk result (TakesChunk found.old found.new chunk.now) }
{
    let mut rest = chunk;
    while let Some((r, n)) = read_rec(rest) {
        take_rec(alloc, found, r)?;
        rest = &rest[n..];
    }
    Ok(())
}

/// What the records of the chunks say of so many pages.
pub(crate) fn find<'a>(
    alloc: Global,
    chunks: &'a [Vec<u8>],
    pages: u32,
) -> Result<Found<'a>, AllocError>
    ensures { IfOk result (FoundIn pages (texts chunks.now)) }
{
    let mut found = Found {
        changes: Vec::new(alloc),
        counts: BTreeMap::new(alloc),
        committed: BTreeSet::new(alloc),
        frames: no_frames(alloc, pages)?,
    };
    for chunk in chunks {
        take_chunk(alloc, &mut found, chunk)?;
    }
    Ok(found)
}
