//! The memory of one page.

ghost use Rattle.std.specs.Prelude.{◌≡◌, ◌+◌, ◌≤◌, None, length, map, replicate, IfOk, OnOk, OnErr};
ghost use Rattle.std.specs.List.{All};
ghost use Rattle.sb_disk.specs.Causes.{HasCause};
ghost use Rattle.sb_bytes.specs.Bytes.{splice};
ghost use Rattle.sb_pool.specs.Frames.{IsFrame, held_of, IsLoaded, put_out, HasFailed};
ghost use Rattle.sb_pool.specs.State.{cleaned};

use sb_bytes::{PAGE_LEN, splice};
use sb_disk::{Disk, Failed};
use std::alloc::{AllocError, Global};

/// What a frame has of its page: nothing, the page as the disk has it, or the page as it is to be written.
#[derive(Clone, Copy, Debug, PartialEq, Eq, Drop)]
pub(crate) enum Content {
    Nothing,
    Clean,
    Dirty,
}

/// The memory of one page.
#[derive(Drop)]
pub(crate) struct Frame {
    pub content: Content,
    pub bytes: Vec<u8>,
}

impl Frame {
    /// A frame with nothing in it.
    pub fn new(alloc: Global) -> Result<Frame, AllocError>
        ensures frame { IfOk result IsFrame }
        ensures nothing { IfOk result (λ f. f.content ≡ Content.Nothing) }
    {
        let bytes = vec![in alloc; 0; PAGE_LEN]?;
        Ok(Frame {
            content: Content::Nothing,
            bytes,
        })
    }

    /// Reads the page from the disk, where there is nothing of it.
    pub fn load<D: Disk>(&mut self, disk: &mut D, at: u64) -> Result<(), Failed>
        requires frame { IsFrame self.old }
        requires within { at + PAGE_LEN ≤ D.len disk.old }
        ensures loaded { OnOk result (IsLoaded (D.told disk.old) at (held_of self.old) (held_of self.new) self.new.bytes.items) }
        ensures err { OnErr result (held_of self.new ≡ held_of self.old) }
        ensures frame { IsFrame self.new }
        ensures told { D.told disk.new ≡ D.told disk.old }
        ensures len { D.len disk.new ≡ D.len disk.old }
        ensures cause { HasCause (D.faults disk.old) (D.faults disk.new) result }
    {
        if self.content == Content::Nothing {
            disk.read_at(at, &mut self.bytes)?;
            self.content = Content::Clean;
        }
        Ok(())
    }

    /// Puts the bytes at a place of the page.
    pub fn write(&mut self, offset: usize, bytes: &[u8])
        requires frame { IsFrame self.old }
        requires within { offset + length bytes.now ≤ PAGE_LEN }
        ensures bytes { self.new.bytes.items ≡ splice offset bytes.now self.old.bytes.items }
        ensures dirty { self.new.content ≡ Content.Dirty }
        ensures frame { IsFrame self.new }
    {
        splice(&mut self.bytes, offset, bytes);
        self.content = Content::Dirty;
    }

    /// Writes the page to the disk, where it is dirty.
    pub fn put_out<D: Disk>(&self, disk: &mut D, at: u64) -> Result<(), Failed>
        requires frame { IsFrame self.now }
        requires within { at + PAGE_LEN ≤ D.len disk.old }
        ensures ok { OnOk result (D.told disk.new ≡ put_out at (held_of self.now) (D.told disk.old)) }
        ensures err { OnErr result (HasFailed at (held_of self.now) (D.told disk.old) (D.told disk.new)) }
        ensures len { D.len disk.new ≡ D.len disk.old }
        ensures cause { HasCause (D.faults disk.old) (D.faults disk.new) result }
    {
        if self.content == Content::Dirty {
            disk.write_at(at, &self.bytes)
        } else {
            Ok(())
        }
    }

    /// The page is on the disk now.
    pub fn mark_clean(&mut self)
        ensures clean { held_of self.new ≡ cleaned (held_of self.old) }
        ensures same { self.new.bytes ≡ self.old.bytes }
    {
        if self.content == Content::Dirty {
            self.content = Content::Clean;
        }
    }
}

/// So many frames with nothing in them.
pub(crate) fn empty_frames(alloc: Global, count: u32) -> Result<Vec<Frame>, AllocError>
    ensures count { IfOk result (λ frames. length frames.items ≡ count) }
    ensures long { IfOk result (λ frames. All IsFrame frames.items) }
    ensures nothing { IfOk result (λ frames. map held_of frames.items ≡ replicate count None) }
{
    let mut frames = Vec::with_capacity(alloc, count as usize)?;
    for _ in 0..count {
        frames.push(Frame::new(alloc)?)?;
    }
    Ok(frames)
}
