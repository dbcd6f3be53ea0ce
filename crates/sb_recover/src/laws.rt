//! Laws of new stores, and of restarts that are refused.

ghost use Rattle.sb_recover.specs.FirstPages.{OwnersStand};
ghost use Rattle.sb_recover.specs.Restarted.{RefusedLeavesNow};

/// The owner of each page of a new store stands in its place in the owner table.
pub fn owners_stand()
    ensures { OwnersStand }
{}

/// All along a restart that is refused, but by a fault, a crash leaves what it could leave before.
pub fn refused_restarts_leave_the_disk()
    ensures { RefusedLeavesNow }
{}
