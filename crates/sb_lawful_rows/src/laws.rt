//! Laws of commands on rows.

ghost use Rattle.sb_lawful_rows.specs.Laws.{ChangesEndLawful, ActionsEndLawful, FinishEndsLawful, RowsStepLawful, CommitsStepLawful, OthersStepLawful, RefusedLeaveLawful, BuildingLeavesLawful};

/// Over a lawful database, a change of a row of any relation, and all that follows from it by references and triggers, to whatever depth, leave a
/// lawful database. So does an action to its end. Each database that is reached on the way is lawful, also where the change is refused in the end.
///
/// The new row's values can be stored and are of the columns' kinds, and so it is with what triggers put into rows.
pub fn what_follows_is_lawful()
    ensures changes { ChangesEndLawful }
    ensures actions { ActionsEndLawful }
{}

/// The actions that wait for the commit, done in their order, leave a lawful database.
pub fn what_waits_is_lawful()
    ensures { FinishEndsLawful }
{}

/// Where all databases of a state are lawful, they are so after a command on rows, in a transaction or as one of its own; after a commit, whatever waits
/// for it; and after a command that works on no database. Each database that such a command reaches on its way is lawful, and one that is refused,
/// whichever it is, leaves the state lawful.
pub fn steps_are_lawful()
    ensures rows { RowsStepLawful }
    ensures commits { CommitsStepLawful }
    ensures others { OthersStepLawful }
    ensures refused { RefusedLeaveLawful }
{}

/// A command that makes or drops a relation, or attaches or detaches a rule, leaves what triggers put into rows as it should be, and the actions that
/// wait may be done over the database that it leaves. So all databases of the state are lawful after it, where the one is that is seen then.
pub fn building_leaves_what_may_wait()
    ensures { BuildingLeavesLawful }
{}
