//! Laws of what a store stands for.

ghost use Rattle.sb_standing.specs.AskedLaws.{ChangedIsDb, SamePagesKeep, SamePagesAsk};
ghost use Rattle.sb_standing.specs.AskedLaws.{PutAsksNone, HasAsMany, NextCanAsk, AskedAsksMore, AllAskedKeeps};
ghost use Rattle.sb_standing.specs.CatalogueLaws.{EntriesTell, FirstTells, LastTells, MissingTell};
ghost use Rattle.sb_standing.specs.TableLaws.{AloneDb, AttachedDb, AttachedKeeps, AttachedKept, CreatedKeeps, DetachedKeeps, DroppedDb, DroppedKeeps, FreedKeeps, NewKeeps, PutDb, StaysKeeps};

/// The entries of the catalogue describe the relations of the database.
pub fn entries_tell_relations()
    ensures entry { EntriesTell }
    ensures missing { MissingTell }
    ensures first { FirstTells }
    ensures last { LastTells }
{}

/// What the pages of a store stand for as relations come and go: a new store, a relation that comes, one that goes, and the pages of an owner
/// that go with it at last; and while other pages change.
pub fn relations_come_and_go()
    ensures new { NewKeeps }
    ensures created { CreatedKeeps }
    ensures created_db { PutDb }
    ensures dropped { DroppedKeeps }
    ensures dropped_db { DroppedDb }
    ensures freed { FreedKeeps }
    ensures stays { StaysKeeps }
{}

/// The same as rules come and go that are no joins.
pub fn rules_come_and_go()
    ensures attached { AttachedKeeps }
    ensures kept { AttachedKept }
    ensures attached_db { AttachedDb }
    ensures alone { AloneDb }
    ensures detached { DetachedKeeps }
{}

/// A store stands for a database. When a relation's rows are changed and then each of its attachments is asked of the change, one after the
/// other, it stands for the changed database.
pub fn asking_keeps_what_stands()
    ensures put { PutAsksNone }
    ensures as_many { HasAsMany }

    ensures next { NextCanAsk }
    ensures asked { AskedAsksMore }
    ensures all_asked { AllAskedKeeps }
    ensures database { ChangedIsDb }

    // A call that makes nothing of the pages leaves what stands.
    ensures same { SamePagesKeep }
    ensures same_asked { SamePagesAsk }
{}
