//! What is so of all pages.

ghost use Rattle.sb_btree.specs.Broken.{TreesAreWhole};
ghost use Rattle.sb_btree.specs.Leaves.{LeavesAreWhole};
ghost use Rattle.sb_forms.specs.Read.{ReadsTrees};
ghost use Rattle.sb_btree.specs.Spending.{TreesAreSmall};
ghost use Rattle.sb_btree.specs.Ways.{WaysAreShort};

/// The items are read of just the pages that are a tree.
pub fn reads_trees()
    ensures { ReadsTrees }
{}

/// No page of a tree may be called broken.
pub fn trees_are_whole()
    ensures { TreesAreWhole }
{}

/// A leaf to which pages of a tree lead has entries of the tree alone.
pub fn leaves_are_whole()
    ensures { LeavesAreWhole }
{}

/// A walk down a tree needs at most 17 pages, all of them the tree's.
pub fn ways_are_short()
    ensures { WaysAreShort }
{}

/// A tree has at most two pages for each entry, and three more.
pub fn trees_are_small()
    ensures { TreesAreSmall }
{}
