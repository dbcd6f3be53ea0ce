//! What is so of each page that has the form.

ghost use Rattle.sb_node.specs.Page.{AreCounted};

/// The head of a page says how many entries it has and how many bytes they take, and the keys rise.
pub fn head_counts()
    ensures { AreCounted }
{}
