//! A look at the catalogue of a store that was just opened.

ghost use Rattle.std.specs.Prelude.{◌≡◌, ◌≤◌, [], false, IfErr, IfOk, OnOk};
ghost use Rattle.sb_registry.specs.Runs.{IsSound};
ghost use Rattle.sb_space.specs.Works.{Serves};
ghost use Rattle.sb_txn.specs.Clauses.{IsReady};
ghost use Rattle.sb_txn.specs.Parts.{parts};
ghost use Rattle.sb_standing.specs.Standing.{owners_in};
ghost use Rattle.sb_opening.specs.Looking.{IsLook, IsLookErr, OverCatalogue, RestsStill, fault_of, found_at_end};
ghost use Rattle.sb_opening.specs.Naming.{named_in};
ghost use Rattle.sb_opening.specs.Owners.{HasNoStray, LooksWithin, TellsStray};

use crate::codes::{Census, Named, take_census};
use crate::owners::check_owners;
use sb_disk::Disk;
use sb_drive::SpaceFault;
use sb_map::Place;
use sb_recover::OpenFault;
use sb_space::{Durable, Space, Tx};
use std::alloc::Global;

/// The codes that the descriptors of all relations name, as they are found in a transaction that changes nothing. Behind them each page is asked
/// for its owner, which is to be that of an instance that a descriptor names.
pub(crate) fn named_codes<D: Disk>(
    space: &mut Space,
    alloc: Global,
    disk: &mut D,
    place: Place,
) -> Result<Vec<Named>, OpenFault>
    requires ready { IsReady (parts D.told D.len disk.old space.old.store) }
    requires up { space.old.store.book.down ≡ false }
    requires none { space.old.store.book.actives ≡ [] }
    requires few { space.old.store.pool.geometry.pages ≤ 65536 }
    requires owner { place.owner ≡ 2 }

    ensures named { IfOk result (λ named. OverCatalogue place.root (parts D.told D.len disk.old space.old.store)
        (λ s kept. named.items ≡ named_in kept)) }
    ensures known { IfOk result (λ named. OverCatalogue place.root (parts D.told D.len disk.old space.old.store)
        (λ s kept. HasNoStray s (owners_in kept))) }
    ensures rests { OnOk result (RestsStill (parts D.told D.len disk.old space.old.store) (parts D.told D.len disk.new space.new.store)) }
    ensures stray { IfErr result (λ e. OverCatalogue place.root (parts D.told D.len disk.old space.old.store)
        (λ s kept. TellsStray s (owners_in kept) e)) }
    ensures err { IfErr result (IsLookErr (D.faults disk.old) (D.faults disk.new)) }
    ensures look { IsLook D.told D.len D.faults disk.old disk.new space.old.store space.new.store }
{
    let tx = match space.begin(disk) {
        Ok(tx) => tx,
        Err(fault) => return Err(fault_of(fault)),
    };
    let found = codes_within(space, alloc, disk, &tx, place);
    let ended = space.abort(disk, tx);
    found_at_end(found, ended)
}

/// What was found, unless the transaction couldn't be ended.
fn found_at_end(
    found: Result<Vec<Named>, SpaceFault>,
    ended: Result<(), SpaceFault>,
) -> Result<Vec<Named>, OpenFault>
    ensures { result ≡ found_at_end found ended }
{
    match ended {
        Ok(()) => match found {
            Ok(named) => Ok(named),
            Err(fault) => Err(fault_of(fault)),
        },
        Err(fault) => Err(fault_of(fault)),
    }
}

/// The same in a transaction of the space.
fn codes_within<D: Disk>(
    space: &mut Space,
    alloc: Global,
    disk: &mut D,
    tx: &Tx,
    place: Place,
) -> Result<Vec<Named>, SpaceFault>
    requires ready { Serves tx.now.store.number (parts D.told D.len disk.old space.old.store) }
    requires owner { place.owner ≡ 2 }

    ensures codes { IfOk result (λ codes. OverCatalogue place.root (parts D.told D.len disk.old space.old.store)
        (λ s kept. codes.items ≡ named_in kept)) }
    ensures known { IfOk result (λ codes. OverCatalogue place.root (parts D.told D.len disk.old space.old.store)
        (λ s kept. HasNoStray s (owners_in kept))) }
    ensures stray { IfErr result (λ e. OverCatalogue place.root (parts D.told D.len disk.old space.old.store)
        (λ s kept. TellsStray s (owners_in kept) (fault_of e))) }
    ensures looks { LooksWithin D.told D.len D.faults tx.now.store.number disk.old disk.new space.old.store space.new.store result }
{
    let census = census_within(space, alloc, disk, tx, place)?;
    let Census { named, owners } = census;
    check_owners(&mut space.store, alloc, disk, owners.as_slice())?;
    Ok(named)
}

/// What the descriptors name.
fn census_within<D: Disk>(
    space: &mut Space,
    alloc: Global,
    disk: &mut D,
    tx: &Tx,
    place: Place,
) -> Result<Census, SpaceFault>
    requires ready { Serves tx.now.store.number (parts D.told D.len disk.old space.old.store) }
    requires owner { place.owner ≡ 2 }

    ensures codes { IfOk result (λ census. OverCatalogue place.root (parts D.told D.len disk.old space.old.store)
        (λ s kept. census.named.items ≡ named_in kept)) }
    ensures owners { IfOk result (λ census. OverCatalogue place.root (parts D.told D.len disk.old space.old.store)
        (λ s kept. census.owners.items ≡ owners_in kept)) }
    ensures undamaged { IfErr result (λ e. OverCatalogue place.root (parts D.told D.len disk.old space.old.store) (λ s kept. IsSound e)) }
    ensures looks { LooksWithin D.told D.len D.faults tx.now.store.number disk.old disk.new space.old.store space.new.store result }
{
    let mut pages = Durable::new(&mut space.store, disk, &tx.store);
    take_census(&mut pages, alloc, place)
}

/// What a look at pages refuses, as an opening says it.
fn fault_of(fault: SpaceFault) -> OpenFault
    ensures { result ≡ fault_of fault }
{
    match fault {
        SpaceFault::Damaged { page } => OpenFault::Damaged { page },
        SpaceFault::NoMemory => OpenFault::NoMemory,
        _ => OpenFault::Fault,
    }
}
