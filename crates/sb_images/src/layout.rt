//! Where a store has its parts on a disk.

ghost use Rattle.std.specs.Prelude.{◌≡◌, ◌↔◌, IsTrue};
ghost use Rattle.sb_images.specs.Layout.{IsGeometry, geometry_of, need, gates_of, log_of, place_of};
ghost use Rattle.sb_journal.specs.View.{range_of};

use sb_bytes::{MOST_PAGES, PAGE_LEN};
use sb_journal::{MAX_GATES, Region};
use sb_log::Geometry;

/// The gates of the chunks of a store: as many as a journal may have.
pub const GATES: u32 = MAX_GATES as u32;

/// Where the gates begin, behind the super page.
pub const GATES_START: u64 = PAGE_LEN as u64;

/// Where the log begins, behind the gates.
pub const LOG_START: u64 = GATES_START + GATES as u64;

/// Whether a store may have these sizes.
pub fn is_geometry(g: Geometry) -> bool
    ensures { IsTrue result ↔ IsGeometry g }
{
    g.version == 1
        && 64 <= g.pages
        && g.pages <= MOST_PAGES
        && 2_097_152 <= g.log
        && g.log <= 16_777_216
}

/// The bytes that a store of so many pages takes of a disk, with a log of so many bytes.
pub fn need(pages: u32, log: u64) -> u64
    requires { IsGeometry (geometry_of pages log) }
    ensures { result ≡ need pages log }
{
    LOG_START + log + PAGE_LEN as u64 * pages as u64
}

/// Where the gates stand.
pub fn gate_region(g: Geometry) -> Region
    ensures { range_of result ≡ gates_of g }
{
    Region {
        start: GATES_START,
        len: GATES as u64,
    }
}

/// Where the log stands.
pub fn log_region(g: Geometry) -> Region
    ensures { range_of result ≡ log_of g }
{
    Region {
        start: LOG_START,
        len: g.log,
    }
}

/// Where a page begins, behind the log.
pub fn place_of(g: Geometry, page: u32) -> u64
    requires { IsGeometry g }
    ensures { result ≡ place_of g page }
{
    LOG_START + g.log + PAGE_LEN as u64 * page as u64
}
