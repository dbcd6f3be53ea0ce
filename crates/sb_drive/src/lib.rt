//! Spaces of pages, and the drivers of boxed calls over any of them.
#![tactic(auto)]

mod attachments;
mod driving;
mod methods;
mod space;
mod turns;

pub use attachments::run_attachment;
pub use methods::run_method;
pub use sb_ctx::{AttachCall, Attachment, Ctx, Instance, MethodCall, Move, StorageMethod};
pub use space::{PageSpace, SpaceFault};
pub use turns::{Ask, Turn, is_find, turn_of};
