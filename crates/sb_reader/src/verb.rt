//! Verbs of commands.

/// What a command does, by its first word.
#[derive(Clone, Copy)]
pub enum Verb {
    Insert,
    Delete,
    Update,
    Get,
    Scan,
    Lookup,
    Range,
    Entries,
    Create,
    Drop,
    Attach,
    Detach,
    Show,
    Savepoint,
    Rollback,
    Register,
    Retire,
}
