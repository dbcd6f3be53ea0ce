//! A store as a space in which instances come and go.

use crate::durable::Durable;
use sb_disk::Disk;
use sb_drive::SpaceFault;
use sb_owners::Owners;
use std::alloc::Global;

impl<D: Disk> Owners for Durable<'_, D> {
    fn new_instance(&mut self, alloc: Global) -> Result<(u16, u32), SpaceFault> {
        self.new_instance(alloc)
    }

    fn free_owner(&mut self, _alloc: Global, owner: u16) -> Result<(), SpaceFault> {
        self.free_owner(owner)
    }
}
