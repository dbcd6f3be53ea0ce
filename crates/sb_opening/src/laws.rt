//! What one run commits with its boxes, another one opens with them.

ghost use Rattle.sb_opening.specs.Laws.{CommittedByAll, CommittedBySame, MovedAreSame, NewAreEmpty, RetiredAreSame};

/// What was committed is so with all boxes live.
pub fn boxes_may_be_live()
    ensures { CommittedByAll }
{}

/// Boxes that become live or spare are the same, and what was committed with all of them live stays so: with them, and with any others of which those
/// are the same ones that its relations name.
pub fn boxes_may_move()
    ensures registered { MovedAreSame }
    ensures retired { RetiredAreSame }
    ensures committed { CommittedBySame }
{}

/// A new store is empty, whichever boxes there are: so is what a crash leaves of the making of one, where that is a store.
pub fn new_stores_are_empty()
    ensures { NewAreEmpty }
{}
