//! The changes of a log, and those of them that stand.

ghost use Rattle.std.specs.Prelude.{◌≡◌, IfOk};
ghost use Rattle.sb_recover.specs.Changes.{changes_of, limits_of, newest_first, taken};

use std::alloc::{AllocError, Global};
use std::collections::BTreeMap;

/// A change of a page, whose bytes are borrowed of its chunk.
#[derive(Clone, Copy, Debug)]
pub(crate) struct Change<'a> {
    pub(crate) tx: u32,
    pub(crate) owner: u16,
    pub(crate) page: u32,
    pub(crate) offset: u16,
    pub(crate) before: &'a [u8],
    pub(crate) after: &'a [u8],
    /// How many changes of the transaction stood before it.
    pub(crate) index: u64,
}

/// How many of a transaction's changes stand.
pub(crate) fn count_of(counts: &BTreeMap<u32, u64>, tx: u32) -> u64
    ensures { result ≡ limits_of counts.now tx }
{
    match counts.get(&tx) {
        Some(n) => *n,
        None => 0,
    }
}

/// The changes that stand, in the order of the log. The counts are used up.
///
/// Of the changes of a transaction with one index the last is the one that may stand, so they are gone through backwards.
pub(crate) fn standing<'a>(
    alloc: Global,
    changes: &[Change<'a>],
    counts: &mut BTreeMap<u32, u64>,
) -> Result<Vec<Change<'a>>, AllocError>
    ensures { IfOk result (λ cs. changes_of cs.items ≡ taken (limits_of counts.old) (newest_first changes.now)) }
{
    let mut found = Vec::new(alloc);
    let mut left = changes.len();
    while left > 0 {
        left -= 1;
        let change = changes[left];
        if change.index < count_of(counts, change.tx) {
            counts.insert(change.tx, change.index)?;
            found.push(change)?;
        }
    }
    found.reverse();
    Ok(found)
}
