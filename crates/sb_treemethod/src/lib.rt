//! The storage method tree: the rows of a relation in a tree of pages, under the ordered code of their key columns.
#![tactic(auto)]

mod method;
mod rows;
mod walks;

pub use method::TreeMethod;
pub use sb_ctx::{Instance, Keys, MethodCall, Move};
