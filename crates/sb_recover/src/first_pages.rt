//! The pages of a new store.

ghost use Rattle.std.specs.Prelude.{◌≡◌, ◌*◌, ◌<◌, ◌≤◌, length, drop};
ghost use Rattle.sb_recover.specs.FirstPages.{super_page, first_owner, owner_entries, free_page, first_page};
ghost use Rattle.sb_images.specs.Layout.{geometry_of};

use sb_bytes::{PAGE_LEN, put_u16, put_u32, put_u64};

/// The pages whose owners one page of the owner table has.
const ENTRIES: u32 = 2048;

/// The owner of the pages of the owner table.
const TABLE: u16 = 1;

/// The owner of the catalogue's root.
const CATALOGUE: u16 = 2;

/// The kind of a tree leaf.
const LEAF: u8 = 2;

/// Makes a page the super page of a store of these sizes, but for its gate.
pub(crate) fn fill_super(page: &mut [u8], pages: u32, log: u64)
    requires { length page.old ≡ PAGE_LEN }
    ensures { drop 1 page.new ≡ drop 1 (super_page (geometry_of pages log)) }
{
    page.fill(0);
    page[8..16].copy_from_slice(b"STARBRST");
    put_u16(page, 16, 1);
    put_u32(page, 20, pages);
    put_u64(page, 24, log);
}

/// Makes a page one that no one owns.
pub(crate) fn fill_free(page: &mut [u8])
    requires { length page.old ≡ PAGE_LEN }
    ensures { page.new ≡ free_page }
{
    page.fill(0);
}

/// Makes a page this one of a new store.
pub(crate) fn fill_first(page: &mut [u8], pages: u32, p: u32)
    requires length { length page.old ≡ PAGE_LEN }
    requires few { pages ≤ 65536 }
    requires one { p < pages }
    ensures { page.new ≡ first_page pages p }
{
    let table = pages.div_ceil(ENTRIES);
    if p < table {
        return fill_table(page, pages, p);
    }
    fill_free(page);
    if p == table {
        page[0] = LEAF;
    }
}

// Makes a page this one of the owner table.
fn fill_table(page: &mut [u8], pages: u32, p: u32)
    requires length { length page.old ≡ PAGE_LEN }
    requires few { pages ≤ 65536 }
    requires one { p < pages }
    ensures { page.new ≡ owner_entries pages (2048 * p) 2048 }
{
    for k in 0..ENTRIES {
        put_u16(page, 2 * k as usize, owner(pages, ENTRIES * p + k));
    }
}

// The owner of a page.
fn owner(pages: u32, q: u32) -> u16
    ensures { result ≡ first_owner pages q }
{
    let table = pages.div_ceil(ENTRIES);
    if q < table {
        TABLE
    } else if q == table {
        CATALOGUE
    } else {
        0
    }
}
