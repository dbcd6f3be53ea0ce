//! Laws of plays, on which rules hold.

ghost use Rattle.sb_lawful_plays.specs.World.{world};
ghost use Rattle.sb_sound_plays.specs.Laws.{PlaysAreSound, PlayedAreSound, PlayedOutAreSound};
ghost use Rattle.sb_sound_plays.specs.Laws.{RunsAreSound, MadeRunsAreSound, CommitsAreSound, CrashesLeaveSound, NothingIsSound};
ghost use Rattle.sb_sound_plays.specs.Laws.{SameBoxesAreSound, HeldBoxesAreSound};

use sb_disk::Disk;
use sb_vectors::Vectors;

/// All states of a play of what lines say, from a sound state, are sound, whatever room, memory or disk was wanting: each rule with a code of ours holds
/// of each commit. So it is of what a session has played, and of what was played when it was closed: then each image that a crash may leave, since the
/// first item began, holds a sound database.
pub fn plays_are_sound<B: Vectors, D: Disk>()
    ensures plays { PlaysAreSound }
    ensures played { PlayedAreSound (world B.meanings D.told D.len D.clock D.faults) }
    ensures out { PlayedOutAreSound D.told D.faults }
{}

/// So it is of a run that is opened over a sound database, and of one over a store that it made, whose database is empty: every state that it comes to is
/// sound, and every image that a crash may leave holds a sound database, over which the next run is opened.
pub fn runs_are_sound<D: Disk>()
    ensures runs { RunsAreSound D.told D.faults }
    ensures made { MadeRunsAreSound D.told D.faults }
{}

/// A state that is opened over a database of a sound state's commits is sound, with whichever boxes live, and so is one that is opened over the empty
/// database. What a crash leaves while an item is answered, from a sound state to a sound one, is such a database.
///
/// It is one with any other boxes too, in whichever order and with whichever others beside, of which those are the same ones that its relations name: the
/// storage method of each, and each attachment's. So it is where those are the same that the descriptors in its store name, as the next run asks for them.
pub fn databases_are_sound()
    ensures commits { CommitsAreSound }
    ensures crashes { CrashesLeaveSound }
    ensures nothing { NothingIsSound }
    ensures boxes { SameBoxesAreSound }
    ensures held { HeldBoxesAreSound }
{}
