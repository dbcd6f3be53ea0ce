//! How many pages a walk over a tree asks for.

ghost use Rattle.sb_method_tests.specs.Heights.{NextWalksAreShort, RemovalsAreShort, WalksAreAsHigh};

/// The way down on which `find`, `insert` and `replace` ask for pages has as many as the tree is high.
pub fn walks_are_as_long_as_the_tree_is_high()
    ensures { WalksAreAsHigh }
{}

/// `next` asks for pages of two ways down at most.
pub fn next_walks_are_short()
    ensures { NextWalksAreShort }
{}

/// `remove` asks for the way down, and for a page beside each of it but the root.
pub fn removals_are_short()
    ensures { RemovalsAreShort }
{}
