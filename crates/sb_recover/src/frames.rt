//! Pages in memory.

ghost use Rattle.std.specs.Prelude.{◌≡◌, ◌+◌, ◌≤◌, ◌<◌, length, IfOk, OnOk};
ghost use Rattle.sb_recover.specs.Frames.{texts, AreFrames, HoldsFirst, NoneHeld};

use std::alloc::{AllocError, Global};

/// For each page of a store its bytes, or none where it isn't held.
pub(crate) type Frames = Vec<Vec<u8>>;

/// No page of so many is held.
pub(crate) fn no_frames(alloc: Global, pages: u32) -> Result<Frames, AllocError>
    ensures { IfOk result (λ frames. NoneHeld pages (texts frames.items)) }
{
    let mut frames = Vec::new(alloc);
    for _ in 0..pages {
        frames.push(Vec::new(alloc))?;
    }
    Ok(frames)
}

/// Takes the bytes of a page that isn't held. A page that the store lacks is passed over.
pub(crate) fn hold_image(
    alloc: Global,
    frames: &mut Frames,
    page: u32,
    bytes: &[u8],
) -> Result<(), AllocError>
    ensures { OnOk result (HoldsFirst page bytes.now (texts frames.old.items) (texts frames.new.items)) }
{
    let page = page as usize;
    if page < frames.len() && frames[page].is_empty() {
        frames[page] = Vec::from_slice(alloc, bytes)?;
    }
    Ok(())
}
