//! Open relations.

use sb_catalog::Descriptor;
use sb_ctx::Instance;
use sb_value::Str;

/// A relation that a command has opened: its descriptor, and the instances of its boxes, those of its attachments in call order.
#[derive(Drop)]
pub struct OpenRelation {
    pub name: Str,
    pub descriptor: Descriptor,
    pub table: Instance,
    pub rules: Vec<Instance>,
}
