//! Laws of work and its picks.

ghost use Rattle.sb_fold.specs.Laws.{ChangesAreOrderly, ActionsAreOrderly, FinishIsOrderly, BuildIsOrderly};

/// The picks that a change and all that follows from it use are the first of those given, and those behind them don't matter.
pub fn changes_are_orderly()
    ensures changes { ChangesAreOrderly }
    ensures actions { ActionsAreOrderly }
{}

/// So it is of what is done before a commit, and of a build.
pub fn whole_work_is_orderly()
    ensures finish { FinishIsOrderly }
    ensures build { BuildIsOrderly }
{}
