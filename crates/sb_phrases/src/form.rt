//! Where terms stand.

/// What may stand for a term.
#[derive(Clone, Copy, Debug, PartialEq, Eq)]
pub enum Form {
    /// A value alone, as in commands.
    Constant,
    /// A value, or a column of the row by its name, as in checks.
    Bare,
    /// A value, or a column of the new or of the old row, as in triggers.
    Full,
}
