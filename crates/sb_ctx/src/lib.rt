//! What boxed calls see of one instance's pages, and the two traits that extensions meet.
#![tactic(auto)]

mod attachment;
mod calls;
mod ctx;
mod held;
mod instance;
mod lists;
mod method;
mod moves;

pub use attachment::Attachment;
pub use calls::{AttachCall, MethodCall};
pub use ctx::Ctx;
pub use instance::Instance;
pub use lists::{Actions, Checks, Keys};
pub use method::StorageMethod;
pub use moves::Move;
