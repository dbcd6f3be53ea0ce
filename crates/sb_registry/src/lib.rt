//! The boxes of the extensions by their codes: the live ones, which commands reach, and the spare ones.
#![tactic(auto)]

mod boxes;
mod calls;
mod coded;
mod columns;
mod extensions;
mod registry;

pub use calls::Boxes;
pub use columns::has_columns;
pub use extensions::{Extensions, Meant};
pub use registry::Registry;
pub use sb_drive::{PageSpace, SpaceFault};
