//! Opening a session.

ghost use Rattle.std.specs.Prelude.{◌≡◌, ◌≤◌, None, false, ℕ, List, IfErr, IfOk, IsErrOf, OnOk};
ghost use Rattle.sb_disk.specs.Causes.{Rose};
ghost use Rattle.sb_disk.specs.Moments.{LeavesOnly};
ghost use Rattle.sb_images.specs.Images.{Restores};
ghost use Rattle.sb_images.specs.Store.{IfTold, IsMounted};
ghost use Rattle.sb_log.specs.declared.geometry.Geometry.{Geometry};
ghost use Rattle.sb_relation.specs.Db.{Db};
ghost use Rattle.sb_registry.specs.Boxes.{Meanings, repeated_in};
ghost use Rattle.sb_drive.specs.Spaces.{Wanted};
ghost use Rattle.sb_session.specs.Sessions.{CanRun, IsFor, parts_of, sizes_of};
ghost use Rattle.sb_space.specs.Table.{slots_in, table_len};
ghost use Rattle.sb_standing.specs.Standing.{AreKnown, owners_in};
ghost use Rattle.sb_standing.specs.Tables.{Kept};
ghost use Rattle.sb_opening.specs.Naming.{HasLive, named_in};
ghost use Rattle.sb_opening.specs.Opening.{HasBoxes, IsCatalogued, IsStored, MayRefuse, NamesEntry, NamesMissing, NamesTable, OpeningErr, Wants, opened};
ghost use Rattle.sb_opening.specs.Owners.{HasNoStray};

use crate::looking::named_codes;
use crate::moving::make_live;
use sb_disk::Disk;
use sb_map::Place;
use sb_recover::OpenFault;
use sb_session::Session;
use sb_space::{Space, catalogue, open_store};
use sb_vectors::Vectors;
use std::alloc::Global;

/// Opens the store that a disk holds, for a session of commands over it with these boxes. A spare box that a relation of the store wants is
/// made live.
///
/// It refuses what `open_store` refuses; then, as `Damaged`, a catalogue that isn't one; then, as `Damaged` too, the page of the owner table with
/// the first entry that is the owner of no instance that a relation of the catalogue has; and then, as `MissingExtension`, the first code for
/// which there is no box, by the order of the relations' names, that of the storage method before those of the attachments.
pub fn open<B: Vectors + Drop, D: Disk>(
    boxes: B,
    alloc: Global,
    disk: &mut D,
    frames: u32,
) -> Result<Session<B>, OpenFault>
    requires frames { (8 ≤ frames) × (frames ≤ 65536) }
    requires unique { repeated_in (B.meanings boxes) ≡ None }

    // The disk's contents stood for a database: so does the session, between transactions.
    ensures stands { IfOk result (λ session. (g : Geometry) (want : Wanted) (db : Db) → IsStored (B.meanings boxes) (D.told disk.old) g want db
        → IsFor B.meanings D.told D.len want (opened (B.meanings session.boxes) db) disk.new session) }
    ensures live { IfOk result (λ session. (g : Geometry) (want : Wanted) (db : Db) (stored : IsStored (B.meanings boxes) (D.told disk.old) g want db)
        → HasLive (B.meanings boxes) (named_in stored.committed.kept) (B.meanings session.boxes)) }
    ensures runs { IfOk result (λ session. CanRun B.meanings D.told D.len disk.new session) }
    ensures sizes { IfOk result (λ session. (want : ℕ → List ℕ) (g : Geometry) → IsMounted want (D.told disk.old) g
        → IfTold (D.told disk.old) (sizes_of session ≡ g)) }
    ensures place { IfOk result (λ session. session.place ≡ record { owner = 2; root = table_len session.space.store.pool.geometry.pages }) }
    ensures up { IfOk result (λ session. session.down ≡ false) }
    ensures outside { IfOk result (λ session. session.«open» ≡ None) }
    ensures wanted { IfOk result (λ session. (want : ℕ → List ℕ) (g : Geometry) → IsMounted want (D.told disk.old) g
        → Wants want (parts_of D.told D.len disk.new session)) }

    // A store of which a box is missing isn't opened.
    ensures present { OnOk result (HasBoxes (B.meanings boxes) (D.told disk.old)) }

    // Where the contents have a catalogue, the owner of each page is none of an instance, or one that a relation names.
    ensures owners { IfOk result (λ session. (g : Geometry) (want : Wanted) (kept : List Kept) → IsCatalogued (D.told disk.old) g want kept
        → HasNoStray (slots_in g.pages want) (owners_in kept)) }
    ensures known { IfOk result (λ session. (g : Geometry) (want : Wanted) (kept : List Kept) → IsCatalogued (D.told disk.old) g want kept
        → AreKnown (slots_in g.pages want) (owners_in kept)) }

    // A crash anywhere in the call leaves pages that are restored as before.
    ensures any_moment { (want : ℕ → List ℕ) (g : Geometry) → IsMounted want (D.told disk.old) g
        → LeavesOnly (D.told disk.old) (D.told disk.new) (Restores g want) }

    ensures missing { IfErr result (λ e. (m : Meanings) (g : Geometry) (want : Wanted) (db : Db) (stored : IsStored m (D.told disk.old) g want db)
        → MayRefuse (B.meanings boxes) (named_in stored.committed.kept) e) }
    ensures table { IfErr result (λ e. NamesTable e (D.told disk.old)) }
    ensures entry { IfErr result (λ e. NamesEntry e (D.told disk.old)) }
    ensures absent { IfErr result (λ e. NamesMissing (B.meanings boxes) e (D.told disk.old)) }
    ensures refused { IfErr result (λ e. OpeningErr e (D.told disk.old) (D.told disk.new)) }
    ensures fault { IsErrOf result OpenFault.Fault → Rose (D.faults disk.old) (D.faults disk.new) }
    ensures len { D.len disk.new ≡ D.len disk.old }
    ensures later { D.faults disk.old ≤ D.faults disk.new }
{
    let mut boxes = boxes;
    let store = open_store(alloc, disk, frames)?;
    let (owner, root) = catalogue(&store);
    let place = Place { owner, root };
    let mut space = Space { store };
    let named = named_codes(&mut space, alloc, disk, place)?;
    make_live(&mut boxes, named.as_slice())?;
    Ok(Session {
        boxes,
        space,
        place,
        opened: Vec::new(alloc),
        open: None,
        down: false,
    })
}
