//! Laws of how many pages a store has for its database.

ghost use Rattle.sb_weights.specs.Beside.{BesideIsFull, RestHasRoom};
ghost use Rattle.sb_weights.specs.Charges.{AskingIsCharged, MethodIsCharged, PrepareIsCharged, RuleIsCharged};
ghost use Rattle.sb_weights.specs.Coming.{ComingIsFull};
ghost use Rattle.sb_weights.specs.Weights.{RestIsWithin, FullIsNeeded, ChangeIsFull, ChangeIsWithin, AskedIsWithin, AskingIsFull, AskingIsWithin, LastingAreMeant};

/// The pages of a store at rest are within the need of its database. Those that are held aside count as the most that each of them may be.
pub fn rest_is_within()
    ensures within { RestIsWithin }
{}

/// Where all pages of a store at rest are used, there are no more than those of the space itself and those that the database needs.
pub fn full_is_needed()
    ensures needed { FullIsNeeded }
{}

/// With the fresh pages of a call of the storage method that is within its room, the pages of a store are within the need of the change that
/// the call makes. So where no page is left for it, there are no more than those of the space itself and that need.
pub fn change_is_within()
    ensures within { ChangeIsWithin }
    ensures full { ChangeIsFull }
{}

/// While a relation's attachments are asked of a change, one after the other, the pages of the store are within the need of this change: each
/// of them has its content over the database before or over the changed one. So are they with the fresh pages of the next attachment's call, as
/// long as the call is within its room.
pub fn asking_is_within()
    ensures asked { AskedIsWithin }
    ensures asking { AskingIsWithin }
    ensures full { AskingIsFull }
{}

/// While a relation of a new name comes to a store, its owner's pages and those of the catalogue grow within their bounds. Where no page is left
/// then, there are no more than those of the space itself and those that the database with the relation needs.
pub fn coming_is_full()
    ensures full { ComingIsFull }
{}

/// While instances come to the relations of a store or go from them, the pages of all others stay, and the catalogue stays within its room. Where no
/// page is left then, there are no more than those of the space itself, those that were needed before, and those of the new owner.
pub fn beside_is_full()
    ensures rest { RestHasRoom }
    ensures full { BesideIsFull }
{}

/// Relations outlive the run where no storage method of theirs counts its keys.
pub fn lasting_are_meant()
    ensures meant { LastingAreMeant }
{}

/// What a live storage method may edit for a change or for a new relation, and a live attachment that is asked of a change, is no more than the
/// definitions charge for it.
pub fn calls_are_charged()
    ensures method { MethodIsCharged }
    ensures rule { RuleIsCharged }
    ensures asking { AskingIsCharged }
    ensures prepare { PrepareIsCharged }
{}
