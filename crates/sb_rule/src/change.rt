//! Changes of one row.

use sb_value::{RecKey, Tuple};

/// What happened to one row of a relation.
#[derive(Drop)]
pub enum Change {
    Insert {
        key: RecKey,
        new: Tuple,
    },
    Delete {
        key: RecKey,
        old: Tuple,
    },
    Update {
        from: RecKey,
        old: Tuple,
        to: RecKey,
        new: Tuple,
    },
}
