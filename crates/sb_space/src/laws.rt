//! Laws of going back.

ghost use Rattle.sb_space.specs.Transactions.{DrivenKeepsChanges, DrivenKeepsSpace, DrivenKeepsWanted, DrivenKeepsWas, MarkHasPages};

use sb_disk::Disk;

/// To go back to a savepoint gives the pages that were there, whatever calls were driven since; and all along the same pages are wanted of the same space.
pub fn going_back_gives_what_was<D: Disk>()
    ensures mark { MarkHasPages }
    ensures was { DrivenKeepsWas D.told D.len D.faults }
    ensures wanted { DrivenKeepsWanted D.told D.len D.faults }
    ensures changes { DrivenKeepsChanges D.told D.len D.faults }
    ensures space { DrivenKeepsSpace D.told D.len D.faults }
{}
