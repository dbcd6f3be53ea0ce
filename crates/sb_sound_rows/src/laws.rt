//! Laws of work on rows: which rules hold where it ends.

ghost use Rattle.sb_sound_rows.specs.Laws.{ChangesEndSound, ActionsEndSound, FinishEndsSound};

/// Over a lawful database whose rules hold, but for those that are deferred, a change of a row of any relation, and all that follows from it by
/// references and triggers, to whatever depth, end over one whose rules hold so. So does an action to its end. While a cascade is under way, a reference
/// may fail of rows that are still to go; none of them is left when it ends.
pub fn what_follows_is_sound()
    ensures changes { ChangesEndSound }
    ensures actions { ActionsEndSound }
{}

/// When the actions that wait for the commit are done, and nothing is refused, every rule holds, deferred or not. A rule of another's code is asked of
/// each change and answers for itself; nothing is said of it here.
pub fn what_waits_is_sound()
    ensures { FinishEndsSound }
{}
