//! The smallest store, which has 64 pages.

ghost use Rattle.std.specs.Prelude.{◌≡◌, [], IfSome};
ghost use Rattle.sb_txn.specs.Clauses.{IsReady};
ghost use Rattle.sb_txn.specs.Parts.{parts};

use sb_disk::Disk;
use sb_txn::Store;
use std::alloc::Global;

/// The smallest store, and the bytes that it takes of a disk.
pub const PAGES: u32 = 64;

pub const LOG: u64 = 2_097_152;

pub const SIZE: u64 = 2_428_928;

/// Opens a store of 64 pages.
pub fn opened<D: Disk>(alloc: Global, disk: &mut D) -> Option<Store>
    ensures ready { IfSome result (λ s. IsReady (parts D.told D.len disk.new s)) }
    ensures none { IfSome result (λ s. s.book.actives ≡ []) }
    ensures pages { IfSome result (λ s. s.pool.geometry.pages ≡ 64) }
{
    let store = match Store::open(alloc, disk, 8) {
        Ok(store) => store,
        Err(_) => return None,
    };
    if store.pages() != PAGES {
        drop(store);
        return None;
    }
    Some(store)
}
