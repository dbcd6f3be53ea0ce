//! The sizes of the store that a disk holds.

ghost use Rattle.std.specs.Prelude.{IfOk, IfErr, IsErrOf};
ghost use Rattle.sb_journal.specs.Opening.{OnlyReads};
ghost use Rattle.sb_disk.specs.Causes.{Rose};
ghost use Rattle.sb_recover.specs.Geometries.{IsStoreIn, NoStoreErr};

use crate::OpenFault;
use crate::super_page::found_in;
use sb_bytes::PAGE_LEN;
use sb_disk::Disk;
use sb_log::Geometry;

/// The sizes of the store that the disk holds.
pub(crate) fn read_store<D: Disk>(disk: &mut D) -> Result<Geometry, OpenFault>
    ensures ok { IfOk result (IsStoreIn (D.told disk.old) (D.len disk.old)) }
    ensures refused { IfErr result (NoStoreErr (D.told disk.old)) }
    ensures fault { IsErrOf result OpenFault.Fault → Rose (D.faults disk.old) (D.faults disk.new) }
    ensures reads { OnlyReads D.told D.len D.faults disk.old disk.new }
{
    let have = disk.len();
    if have < PAGE_LEN as u64 {
        return Err(OpenFault::NotStore);
    }
    let mut page = [0; PAGE_LEN];
    disk.read_at(0, &mut page)?;
    match found_in(&page, have) {
        Some(g) => Ok(g),
        None => Err(OpenFault::NotStore),
    }
}
