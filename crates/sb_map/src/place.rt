//! Where a map stands.

/// The owner of a map's pages, and the root of its tree.
#[derive(Clone, Copy, Debug, PartialEq, Eq)]
pub struct Place {
    pub owner: u16,
    pub root: u32,
}
