//! Laws of the volatile half.

ghost use Rattle.sb_halves.specs.Halves.{AbortsGiveBack};

/// A transaction that is aborted leaves the very volatile pages that it began with, whatever calls of boxes were driven since.
pub fn an_abort_gives_what_was_at_begin()
    ensures { AbortsGiveBack }
{}
