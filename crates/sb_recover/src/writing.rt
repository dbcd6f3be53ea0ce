//! Pages written to the disk.

ghost use Rattle.std.specs.Prelude.{◌≡◌, ◌≤◌, ◌<◌, ◌⊎◌, [], length, OnOk, OnErr};
ghost use Rattle.sb_disk.specs.Causes.{HasCause};
ghost use Rattle.sb_disk.specs.Disk.{WhereTold, FailedWrite};
ghost use Rattle.sb_disk.specs.Moments.{IsSettled, LeavesOnly};
ghost use Rattle.sb_images.specs.Layout.{need, place_of, IsGeometry};
ghost use Rattle.sb_recover.specs.Frames.{texts, AreFrames};
ghost use Rattle.sb_recover.specs.Writing.{AllWritten, LeavesPages, with_page};

use sb_disk::{Disk, Failed};
use sb_images::place_of;
use sb_log::Geometry;

/// Writes a page, where it has bytes.
fn write_page<D: Disk>(disk: &mut D, g: &Geometry, page: u32, bytes: &[u8]) -> Result<(), Failed>
    requires sizes { IsGeometry g.now }
    requires room { need g.now.pages g.now.log ≤ D.len disk.old }
    requires page { page < g.now.pages }
    requires whole { (bytes.now ≡ []) ⊎ (length bytes.now ≡ 4096) }
    ensures ok { OnOk result (D.told disk.new ≡ with_page g.now page bytes.now (D.told disk.old)) }
    ensures err { OnErr result (FailedWrite (place_of g.now page) (length bytes.now) (D.told disk.old) (D.told disk.new)) }
    ensures len { D.len disk.new ≡ D.len disk.old }
    ensures cause { HasCause (D.faults disk.old) (D.faults disk.new) result }
{
    if bytes.is_empty() {
        return Ok(());
    }
    disk.write_at(place_of(*g, page), bytes)
}

/// Writes the pages that are held, and syncs.
pub(crate) fn write_pages<D: Disk>(
    disk: &mut D,
    g: &Geometry,
    frames: &[Vec<u8>],
) -> Result<(), Failed>
    requires sizes { IsGeometry g.now }
    requires room { need g.now.pages g.now.log ≤ D.len disk.old }
    requires settled { IsSettled (D.told disk.old) }
    requires frames { AreFrames g.now.pages (texts frames.now) }

    ensures written { OnOk result (WhereTold (D.told disk.old) (D.told disk.new) (AllWritten g.now (texts frames.now))) }

    // A crash anywhere in the call leaves what was there, but for those pages.
    ensures any_moment { LeavesOnly (D.told disk.old) (D.told disk.new) (LeavesPages g.now (texts frames.now) (D.told disk.old)) }

    ensures len { D.len disk.new ≡ D.len disk.old }
    ensures cause { HasCause (D.faults disk.old) (D.faults disk.new) result }
{
    for page in 0..g.pages {
        write_page(disk, g, page, &frames[page as usize])?;
    }
    disk.sync()
}
