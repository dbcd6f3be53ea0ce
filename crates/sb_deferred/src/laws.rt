//! Laws of queues and their marks, and of what waits in them.

ghost use Rattle.sb_deferred.specs.Laws.{CutGivesWhatWaited, ActionsComeLast, ChecksComeLast, NothingIsLost, FrontsAddUp};
ghost use Rattle.sb_deferred.specs.CompleteLaws.{CompleteAtFirst, CompleteAfterAChange, MirroredAfterAChange};
ghost use Rattle.sb_deferred.specs.CompleteLaws.{NothingFails, NothingFailsAtAll, AnEntryThatFails, MirrorsHoldAlike};
ghost use Rattle.sb_deferred.specs.CompleteLaws.{CompleteWithMore, CompleteWithOtherActions};
ghost use Rattle.sb_deferred.specs.CompleteLaws.{CompleteWithARelation, CompleteWithARule, CompleteWithoutARule, CompleteWithoutARelation};

/// To cut back to a mark, after whatever was put off since, gives what waited there.
pub fn cutting_back_gives_what_waited()
    ensures cut { CutGivesWhatWaited }

    // What was put off since only stands behind what waited.
    ensures action { ActionsComeLast }
    ensures check { ChecksComeLast }
    ensures stays { NothingIsLost }
    ensures adds_up { FrontsAddUp }
{}

/// What waits for the commit tells which deferred rules may fail: where no entry that waits fails, each of them holds of its whole relation.
pub fn what_waits_tells_what_fails()
    ensures at_first { CompleteAtFirst }
    ensures after_a_change { CompleteAfterAChange }
    ensures mirrors { MirroredAfterAChange }

    // At the commit.
    ensures nothing_fails { NothingFails }
    ensures nothing_at_all { NothingFailsAtAll }
    ensures an_entry_fails { AnEntryThatFails }
    ensures mirrors_alike { MirrorsHoldAlike }
{}

/// What waits tells no less when more waits, and when relations and rules come and go.
pub fn what_comes_and_goes_tells_no_less()
    ensures more { CompleteWithMore }
    ensures actions { CompleteWithOtherActions }

    ensures a_relation { CompleteWithARelation }
    ensures a_rule { CompleteWithARule }
    ensures without_a_rule { CompleteWithoutARule }
    ensures without_a_relation { CompleteWithoutARelation }
{}
