//! The law of steps, and what it makes of plays.

ghost use Rattle.sb_lawful_steps.specs.Laws.{StepsLeaveLawful, DatabasesAreLawful, PlaysStayLawful, PlaysFromNothing};
ghost use Rattle.sb_lawful_steps.specs.Laws.{AlikeAreLawful, DownIsLawful};

/// Each step of a lawful state leaves a lawful state, for every command that the language has, whatever the picks, and whether it is refused or not. In
/// such a state all databases are lawful, with names as the language makes them: those of the commits, of the transaction and of the savepoints.
pub fn steps_leave_lawful()
    ensures step { StepsLeaveLawful }
    ensures databases { DatabasesAreLawful }
{}

/// Commands of the language, one after the other and with whatever picks, lead from a lawful state through lawful states alone. So they do from the state
/// of a new kernel, whose only commit is the empty database, with any codes.
pub fn plays_stay_lawful()
    ensures from { PlaysStayLawful }
    ensures nothing { PlaysFromNothing }
{}

/// A lawful state stays so with any extensions of which those are the same that its databases name: the storage method of each relation, and the code of
/// each attachment. They may stand in another order, as they do once some became live or spare, and others may stand beside. It also stays so when a fault
/// or damage has ended the kernel.
pub fn lawful_states_stay()
    ensures order { AlikeAreLawful }
    ensures down { DownIsLawful }
{}
