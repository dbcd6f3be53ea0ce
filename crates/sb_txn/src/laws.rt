//! Laws of undo lists.

ghost use Rattle.sb_txn.specs.Laws.{LastIsUndone, AllAreUndone, OthersStay, RestAddsNothing, GrowthAddsUp, ChunksGrow};

/// To go back to a savepoint gives the pages as they were there: the last of some changes is undone as if it had never been made, and so are all.
pub fn back_gives_what_was()
    ensures last { LastIsUndone }
    ensures all { AllAreUndone }

    // Beside the writes of others that don't meet them it is so byte by byte.
    ensures others { OthersStay }
{}

/// What calls add to the log, from any moment up to the next checkpoint, is the sum of what each of them adds.
pub fn log_grows_by_the_sum()
    ensures rest { RestAddsNothing }
    ensures sum { GrowthAddsUp }
    ensures chunks { ChunksGrow }
{}
