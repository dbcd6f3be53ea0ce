//! One change and all that follows from it, over a layer that keeps relations.
#![tactic(auto)]

mod changes;
mod finishing;
pub mod laws;
mod layer;
mod wish;

pub use changes::{act, change};
pub use finishing::finish;
pub use layer::Layer;
pub use wish::Wish;
