//! Laws of plays.

ghost use Rattle.sb_kernel.specs.World.{world};
ghost use Rattle.sb_lawful_plays.specs.Laws.{AnswersAreWritten, PlaysAreLawful, PlayedAreLawful, PlayedOutAreLawful};
ghost use Rattle.sb_lawful_plays.specs.Laws.{RunsAreLawful, MadeRunsAreLawful, CommitsAreLawful, CrashesLeaveLawful, NothingIsLawful};
ghost use Rattle.sb_lawful_plays.specs.Laws.{SameBoxesAreLawful, HeldBoxesAreLawful};

use sb_disk::Disk;
use sb_vectors::Vectors;

/// The items that a run answers, however it ends, are commands that lines can write, or bad.
pub fn answers_are_written()
    ensures { AnswersAreWritten }
{}

/// All states of a play of such items from a lawful state are lawful, whatever room, memory or disk was wanting. So it is of what a session has played,
/// and of what was played when it was closed: then each image that a crash may leave, since the first item began, holds a lawful database.
pub fn plays_are_lawful<B: Vectors, D: Disk>()
    ensures plays { PlaysAreLawful }
    ensures played { PlayedAreLawful (world B.meanings D.told D.len D.clock D.faults) }
    ensures out { PlayedOutAreLawful D.told D.faults }
{}

/// So it is of a run that is opened over a lawful database, and of one over a store that it made, whose database is empty: every state that it comes to is
/// lawful, and every image that a crash may leave holds a lawful database, over which the next run is opened.
pub fn runs_are_lawful<D: Disk>()
    ensures runs { RunsAreLawful D.told D.faults }
    ensures made { MadeRunsAreLawful D.told D.faults }
{}

/// A state that is opened over a database of a lawful state's commits is lawful, with whichever boxes live, and so is one that is opened over the empty
/// database. What a crash leaves while an item is answered, from a lawful state to a lawful one, is such a database.
///
/// It is one with any other boxes too, in whichever order and with whichever others beside, of which those are the same ones that its relations name: the
/// storage method of each, and each attachment's. So it is where those are the same that the descriptors in its store name, as the next run asks for them.
pub fn databases_are_lawful()
    ensures commits { CommitsAreLawful }
    ensures crashes { CrashesLeaveLawful }
    ensures nothing { NothingIsLawful }
    ensures boxes { SameBoxesAreLawful }
    ensures held { HeldBoxesAreLawful }
{}
