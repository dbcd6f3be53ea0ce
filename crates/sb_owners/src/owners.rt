//! What makes and frees the pages of instances.

ghost use Rattle.std.specs.Prelude.{◌<◌, [], IfOk, IfErr, OnOk, OnErr};
ghost use Rattle.sb_drive.specs.View.{nothing};
ghost use Rattle.sb_drive.specs.Instances.{IsLeastFree, IsLeastOwner};
ghost use Rattle.sb_drive.specs.Slots.{Slots};
ghost use Rattle.sb_drive.specs.Spaces.{IsFull, IsStoreFault, Leaves, LeadsWithin, UnlessDown, Wanted};
ghost use Rattle.sb_drive.specs.declared.turns.Ask.TheVariants.{Fresh};
ghost use Rattle.sb_owners.specs.Instances.{HasCome, HasNone, IsUnbroken};

use sb_drive::{PageSpace, SpaceFault};
use std::alloc::Global;

/// A space of pages that gives an instance its owner and takes all pages of one back.
pub trait Owners: PageSpace {
    /// Makes an instance: the least owner that no page has, and its root, a page of zeros, the least page that is nobody's. At most two changes.
    fn new_instance(&mut self, alloc: Global) -> Result<(u16, u32), SpaceFault>
        requires ready { Self.is_ready self.old }

        ensures made { IfOk result (λ made. (want : Wanted) (s : Slots) → Self.has want s self.old → HasCome Self.has want s made.0 made.1 self.new) }
        ensures owner { IfOk result (λ made. (want : Wanted) (s : Slots) → Self.has want s self.old → IsLeastOwner s [] made.0) }
        ensures root { IfOk result (λ made. (want : Wanted) (s : Slots) → Self.has want s self.old → IsLeastFree s made.1) }
        ensures high { IfOk result (λ made. 2 < made.0) }
        ensures same { UnlessDown result ((want : Wanted) (s : Slots) → Self.has want s self.old → OnErr result (Self.has want s self.new)) }
        ensures full { IfErr result (λ e. (want : Wanted) (s : Slots) → Self.has want s self.old
            → IsFull (Self.durable self.old) (Self.total self.old) s nothing Fresh e) }
        ensures undamaged { IfErr result IsUnbroken }
        ensures leads { LeadsWithin Self.leads 2 self.old self.new }
        ensures fails { IfErr result (λ e. Self.fails e self.old self.new) }
        ensures ready { Self.is_ready self.new };

    /// Makes every page of the owner nobody's. At most 33 changes.
    fn free_owner(&mut self, alloc: Global, owner: u16) -> Result<(), SpaceFault>
        requires ready { Self.is_ready self.old }
        requires owner { 1 < owner }

        ensures pages { UnlessDown result ((want : Wanted) (s : Slots) → Self.has want s self.old
            → Leaves Self.has owner want s self.new (λ after. OnOk result (HasNone after))) }
        ensures undamaged { IfErr result IsStoreFault }
        ensures leads { LeadsWithin Self.leads 33 self.old self.new }
        ensures fails { IfErr result (λ e. Self.fails e self.old self.new) }
        ensures ready { Self.is_ready self.new };
}
