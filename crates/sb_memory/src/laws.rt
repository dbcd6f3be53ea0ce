//! Laws of going back.

ghost use Rattle.sb_memory.specs.MemorySpaces.{DrivenGoesBack, DrivenKeepsWrites};

/// To go back to a mark gives the very memory of then, whatever calls of boxes were driven since.
pub fn going_back_gives_what_was()
    ensures back { DrivenGoesBack }
    ensures writes { DrivenKeepsWrites }
{}
