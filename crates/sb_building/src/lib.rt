//! Rules that come and go, on an engine at work.
#![tactic(auto)]

mod attaching;
mod building;
mod detaching;
mod instances;
mod lengths;
mod placing;
mod rules;

pub use attaching::attach;
pub use detaching::detach;
pub use sb_tables::{
    OpenRelation, Place, Running, create, drop_relation, open_at, open_named, prepare, refusal_of,
};
