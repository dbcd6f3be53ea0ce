//! A memory as a space in which instances come and go.

ghost use Rattle.std.specs.Prelude.{◌≡◌, ◌<◌, false, IfOk, OnOk, OnErr};
ghost use Rattle.sb_ctx.specs.View.{nothing};
ghost use Rattle.sb_memory.specs.MemorySpaces.{IsMemoryFault};
ghost use Rattle.sb_memory.specs.Contents.{Grows, slots};
ghost use Rattle.sb_drive.specs.Spaces.{IsFull};
ghost use Rattle.sb_drive.specs.declared.turns.Ask.TheVariants.{Fresh};
ghost use Rattle.sb_memory.specs.Freeing.{Frees};
ghost use Rattle.sb_owners.specs.Instances.{IsUnbroken, without_owner};

use crate::asks::answer;
use crate::memory::{MOST_PAGES, Memory};
use crate::slots::{Slot, Write};
use sb_ctx::Ctx;
use sb_drive::{Ask, SpaceFault};
use sb_owners::Owners;
use std::alloc::{AllocError, Global};

/// An owner is always left: there are fewer pages than owners.
impl Owners for Memory {
    #[tactic(auto, unfolding(crate::specs::MemorySpaces::IsMemoryFault))]
    fn new_instance(&mut self, alloc: Global) -> Result<(u16, u32), SpaceFault> {
        let Ok(made) = self.new_instance(&[]) else {
            return Err(refusal(self, alloc));
        };
        self.are_pages();
        Ok(made)
    }

    #[tactic(auto, unfolding(crate::specs::MemorySpaces::IsMemoryFault))]
    fn free_owner(&mut self, alloc: Global, owner: u16) -> Result<(), SpaceFault> {
        clear(self, alloc, owner)?;
        self.are_pages();
        Ok(())
    }
}

/// Why no instance can be made: no page is left, or memory is wanting.
#[tactic(auto, unfolding(crate::specs::MemorySpaces::IsMemoryFault))]
fn refusal(memory: &Memory, alloc: Global) -> SpaceFault
    ensures full { IsFull false 16384 (slots memory.now.now) nothing Fresh result }
    ensures undamaged { IsUnbroken result }
    ensures cause { IsMemoryFault result }
{
    let mut ctx = Ctx::new(alloc);
    match answer(memory, 0, &mut ctx, Ask::Fresh) {
        Ok(()) => SpaceFault::NoMemory,
        Err(fault) => fault,
    }
}

/// Makes every page of the owner nobody's, or leaves all as it is.
fn clear(memory: &mut Memory, alloc: Global, owner: u16) -> Result<(), AllocError>
    requires { 1 < owner }
    ensures cleared { OnOk result (slots memory.new.now ≡ without_owner owner (slots memory.old.now)) }
    ensures grows { OnOk result (Grows memory.old memory.new) }
    ensures err { OnErr result (memory.new ≡ memory.old) }
{
    let writes = freeing(memory, alloc, owner)?;
    memory.write(writes)
}

/// A write for each page of the owner.
fn freeing(memory: &Memory, alloc: Global, owner: u16) -> Result<Vec<Write>, AllocError>
    requires { 1 < owner }
    ensures { IfOk result (λ writes. Frees owner (slots memory.now.now) writes.items) }
{
    memory.are_pages();
    let mut writes = Vec::new(alloc);
    for number in 0..MOST_PAGES {
        if memory.owner_of(number) == owner {
            let slot = Slot::nobodys(alloc);
            writes.push(Write { number, slot })?;
        }
    }
    Ok(writes)
}
