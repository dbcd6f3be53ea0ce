//! Commands.

use sb_rule::{Action, Rule};
use sb_value::{Names, RecKey, Schema, Str, Tuple};

/// What a line may ask for.
#[derive(Drop)]
pub enum Command {
    /// Makes a relation, which the storage method of the code keeps.
    Create {
        relation: Str,
        method: u16,
        schema: Schema,
        key: Names,
    },
    Drop {
        relation: Str,
    },
    /// Puts an attachment on a relation, over the rows that stand.
    Attach {
        relation: Str,
        name: Str,
        rule: Rule,
    },
    Detach {
        relation: Str,
        name: Str,
    },
    /// Makes a spare extension live: a storage method or an attachment.
    Register {
        method: bool,
        code: u16,
    },
    /// Makes a live extension spare.
    Retire {
        method: bool,
        code: u16,
    },
    Begin,
    Commit,
    Abort,
    Savepoint {
        name: Str,
    },
    /// Goes back to a savepoint.
    Rollback {
        name: Str,
    },
    Insert {
        relation: Str,
        values: Tuple,
    },
    Delete {
        relation: Str,
        at: RecKey,
    },
    Update {
        relation: Str,
        at: RecKey,
        values: Tuple,
    },
    /// Deletes the rows that match, sets a column of them, or adds a number to it.
    Act {
        action: Action,
    },
    Get {
        relation: Str,
        at: RecKey,
    },
    /// Rows in the order of their record keys, behind one of them, up to so many.
    Scan {
        relation: Str,
        after: Option<RecKey>,
        limit: Option<u32>,
    },
    /// The rows with these values, by an index.
    Lookup {
        relation: Str,
        name: Str,
        values: Tuple,
    },
    /// The rows from low to high, both included, by a tree index.
    Range {
        relation: Str,
        name: Str,
        low: Tuple,
        high: Tuple,
    },
    /// What an attachment contains.
    Entries {
        relation: Str,
        name: Str,
    },
    /// The commands that make a relation.
    Show {
        relation: Str,
    },
    /// The names of all relations.
    Tables,
    Checkpoint,
}
