//! Boxed calls as values.

use sb_forms::Change;
use sb_value::{Bytes, RecKey, Tuple};

/// A call of a storage method.
#[derive(Drop)]
pub enum MethodCall {
    Prepare,
    Insert(Tuple),
    Delete(RecKey),
    Update(RecKey, Tuple),
    Get(RecKey),
    Next(Option<RecKey>),
}

/// A call of an attachment.
#[derive(Drop)]
pub enum AttachCall {
    Prepare,
    Build(RecKey, Tuple),
    Changed(Change),
    Late(Bytes),
    NextEntry(RecKey, Option<(RecKey, RecKey)>),
    Sums,
    Seek(Tuple),
}
