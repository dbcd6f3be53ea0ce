//! Laws of how many pages owners have, and of a space in which all pages are used.

ghost use Rattle.sb_room.specs.Owned.{FullIsOwned, PagesOfBoth, PagesOfSplit, PagesOfSame};

/// Where all pages are used, there are no more than those of the table, the fresh ones that are held, and those of the owners together. A page that
/// is somebody's and shows no bytes is the table's, and one that shows bytes has one of these owners. A fresh page may be taken already or not.
pub fn full_is_owned()
    ensures owned { FullIsOwned }
{}

/// The pages of two lists of owners together are those of the one and those of the other. So those of an owner who stands among others can be told
/// apart.
pub fn owners_add_up()
    ensures both { PagesOfBoth }
    ensures split { PagesOfSplit }
{}

/// Where each of the owners has the same pages in two spaces, they have as many together.
pub fn same_pages_count_the_same()
    ensures same { PagesOfSame }
{}
