//! Rules: what an attachment keeps, forbids or does.

use crate::Action;
use sb_pred::Pred;
use sb_value::{Bytes, Names, Str};

/// On which of its two relations a rule stands. What is attached by name is the main one.
#[derive(Clone, Copy, Debug, PartialEq, Eq)]
pub enum Side {
    Main,
    Mirror,
}

/// What happens to the rows that refer to a row that goes.
#[derive(Clone, Copy, Debug, PartialEq, Eq)]
pub enum Mode {
    Restrict,
    Cascade,
}

#[derive(Clone, Copy, Debug, PartialEq, Eq)]
pub enum Event {
    Insert,
    Delete,
    Update,
}

/// The rule of an attachment. Its `columns` belong to its own relation.
#[derive(Drop)]
pub enum Rule {
    TreeIndex {
        columns: Names,
        unique: bool,
    },
    HashIndex {
        columns: Names,
    },
    JoinIndex {
        side: Side,
        columns: Names,
        other: Str,
        others: Names,
    },
    Stats {
        column: Str,
        low: i64,
        width: i64,
    },
    Check {
        pred: Pred,
        deferred: bool,
    },
    Refers {
        side: Side,
        columns: Names,
        other: Str,
        others: Names,
        mode: Mode,
        deferred: bool,
    },
    Trigger {
        event: Event,
        pred: Pred,
        action: Action,
        deferred: bool,
    },
    /// Of another's extension, which alone reads the bytes.
    Foreign {
        code: u16,
        desc: Bytes,
    },
}
