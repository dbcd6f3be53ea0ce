//! Laws of what follows from a change.

ghost use Rattle.sb_cascade.specs.FittingLaws.{TermsAreValues, FollowingFits, WaitingFits, AllFollowingFits, AllWaitingFits, ActionsStay, RulesStay, InsertsFit, WishesFit, WishesThereFit, ChangesFit, RowsStay, ChangesGoOn, ActionsGoOn, FinishGoesOn, AttachingStays, DetachingStays, CreatingStays, AttachedMayStand, DetachedMayStand, CreatedMayStand};

/// Over a database whose rules may stand, what follows from a change whose rows fit are actions that fit, now and after any
/// further change, and what such an action wishes of the rows fits too.
pub fn what_follows_fits()
    ensures values { TermsAreValues }

    ensures follows { FollowingFits }
    ensures waits { WaitingFits }
    ensures all_follow { AllFollowingFits }
    ensures all_wait { AllWaitingFits }

    ensures actions_stay { ActionsStay }
    ensures rules_stay { RulesStay }

    ensures inserts { InsertsFit }
    ensures wishes { WishesFit }
{}

/// Over rows that fit, what such an action wishes makes changes whose rows fit. So work that begins with what fits leaves what
/// fits, where it isn't refused: rules that may stand, rows that have their columns, and actions that wait and fit.
pub fn what_fits_goes_on()
    ensures wishes_there { WishesThereFit }
    ensures changes { ChangesFit }
    ensures rows_stay { RowsStay }

    ensures changes_go_on { ChangesGoOn }
    ensures actions_go_on { ActionsGoOn }
    ensures finish_goes_on { FinishGoesOn }
{}

/// What fits stays so when a rule is attached or detached, and when a relation is made; and each rule may stand, where that of
/// the command may. A relation is dropped only where no action waits.
pub fn commands_leave_what_fits()
    ensures attaching { AttachingStays }
    ensures detaching { DetachingStays }
    ensures creating { CreatingStays }

    ensures attached { AttachedMayStand }
    ensures detached { DetachedMayStand }
    ensures created { CreatedMayStand }
{}
