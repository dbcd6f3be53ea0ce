//! Laws of transactions of an engine.

ghost use Rattle.sb_transactions.specs.Driven.{DrivenKeepsBegun, DrivenKeepsEachPoint, DrivenKeepsPoints, DrivenLeavesWanted, DrivenStands, GoesAreWorks, OneHas, OneNow, RunningStands};

use sb_disk::Disk;
use sb_registry::Boxes;

/// A store has one row of pages now, whatever pages are wanted of it.
pub fn one_row_of_pages()
    ensures now { OneNow }
    ensures has { OneHas }
{}

/// Calls that an engine drives over the store of a transaction keep what stands: the pages wanted, points to go back to, and the database over which it was begun.
pub fn driven_keeps_what_stands<B: Boxes, D: Disk>()
    ensures stands { DrivenStands D.told D.len D.faults }
    ensures points { DrivenKeepsPoints D.told D.len D.faults }
    ensures each_point { DrivenKeepsEachPoint D.told D.len D.faults }
    ensures begun { DrivenKeepsBegun D.told D.len D.faults }
    ensures any_moment { DrivenLeavesWanted D.told D.len D.faults }

    // The calls of an engine at work are such calls.
    ensures goes { GoesAreWorks D.told D.len D.faults B.meanings }
    ensures running { RunningStands D.told D.len D.faults B.meanings }
{}
