//! The super page, which says that a disk holds a store and how large that is.

ghost use Rattle.std.specs.Prelude.{◌≡◌, ◌↔◌, ℕ, List, IsTrue, length, take, drop, slice_index};
ghost use Rattle.sb_images.specs.Layout.{name_of_store, super_of};
ghost use Rattle.sb_recover.specs.SuperPage.{Finds};

use sb_bytes::{PAGE_LEN, get_u16, get_u32, get_u64};
use sb_images::{is_geometry, need};
use sb_log::Geometry;

/// What the gate of a store holds.
pub(crate) const OPEN: u8 = 0xA5;

/// The geometry of the store on a disk of so many bytes, of which this is the first page.
pub(crate) fn found_in(page: &[u8], size: u64) -> Option<Geometry>
    requires { length page.now ≡ PAGE_LEN }
    ensures { (image : List ℕ) → super_of image ≡ page.now → length image ≡ size → Finds image result }
{
    let g = Geometry {
        pages: get_u32(page, 20),
        log: get_u64(page, 24),
        version: get_u16(page, 16),
    };
    if is_geometry(g) && need(g.pages, g.log) <= size && is_named(page) {
        return Some(g);
    }
    None
}

// Whether the gate is open, and the name of a store stands behind it.
fn is_named(page: &[u8]) -> bool
    requires { length page.now ≡ PAGE_LEN }
    ensures { IsTrue result ↔ ((slice_index page.now 0 ≡ OPEN) × (take 8 (drop 8 page.now) ≡ name_of_store)) }
{
    page[0] == OPEN && &page[8..16] == b"STARBRST".as_slice()
}
