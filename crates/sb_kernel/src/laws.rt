//! What a run leaves, the next one finds.

ghost use Rattle.sb_kernel.specs.Laws.{HeldIsStored, RestsHeld};
ghost use Rattle.sb_kernel.specs.World.{world};

use sb_disk::Disk;
use sb_vectors::Vectors;

/// What a crash leaves that holds a database, the next run opens for it, if it has the boxes that the relations of the database name.
pub fn held_images_are_stored()
    ensures { HeldIsStored }
{}

/// Between two items a crash leaves the last commit.
pub fn rests_are_held<B: Vectors, D: Disk>()
    ensures { RestsHeld (world B.meanings D.told D.len D.clock D.faults) }
{}
