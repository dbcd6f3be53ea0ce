//! Instances of extensions.

use sb_value::{Bytes, Names, Schema, Str};

/// A relation's storage method, or one of its attachments, as a boxed call sees it.
#[derive(Drop)]
pub struct Instance {
    /// The relation's name.
    pub relation: Str,
    /// The owner of its pages; 0 where it has none.
    pub owner: u16,
    pub root: u32,
    /// Whether the store keeps its pages. Volatile pages go with the run.
    pub durable: bool,
    pub code: u16,
    /// The bytes of an attachment's rule. Empty for a storage method.
    pub desc: Bytes,
    pub schema: Schema,
    /// The key columns of a storage method's relation. Empty for an attachment.
    pub key: Names,
}
