//! Kinds of attachments.

/// What an attachment is, by its first word.
#[derive(Clone, Copy)]
pub enum RuleKind {
    TreeIndex,
    HashIndex,
    JoinIndex,
    Stats,
    Check,
    Refers,
    Trigger,
}
