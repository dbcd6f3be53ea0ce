//! Relations that come and go on an engine at work.
#![tactic(auto)]

mod creation;
mod descriptors;
mod freeing;
mod mirrors;
mod removal;

pub use creation::create;
pub use descriptors::enter;
pub use freeing::free_gone;
pub use mirrors::{detach_named, mirror_name, mirrored};
pub use removal::drop_relation;
pub use sb_engine::{
    OpenRelation, Place, Running, Work, ask, check_rule, is_long_for, next_descriptor, open_at,
    open_named, open_relation, prepare, refusal_of, rule_instance,
};
