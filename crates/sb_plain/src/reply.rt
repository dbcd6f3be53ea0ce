//! Replies.

ghost use Rattle.std.specs.Prelude.{◌≡◌, []};

use sb_fold::Refusal;
use sb_relation::Image;
use sb_value::{Names, RecKey, Tuple};
use std::alloc::Global;
use std::marker::Model;

/// Record keys that a command picked, in the order of its changes.
#[derive(Drop)]
pub struct Picks {
    keys: Vec<RecKey>,
}

impl Model for Picks {
    ghost use Rattle.std.specs.Prelude.{List, ℕ};

    ghost Value = { List (List ℕ) };

    ghost view = { λ p. p.keys.items };
}

impl Picks {
    pub fn new(alloc: Global) -> Picks
        ensures { result ≡ [] }
    {
        Picks {
            keys: Vec::new(alloc),
        }
    }

    pub fn from_vec(keys: Vec<RecKey>) -> Picks
        ensures { result ≡ keys.items }
    {
        Picks { keys }
    }

    pub fn into_vec(self) -> Vec<RecKey>
        ensures { result.items ≡ self }
    {
        self.keys
    }

    pub fn as_slice(&self) -> &[RecKey]
        ensures { result.now ≡ self.now }
    {
        &self.keys
    }
}

/// Rows with their record keys.
#[derive(Drop)]
pub struct Rows {
    rows: Vec<(RecKey, Tuple)>,
}

impl Model for Rows {
    ghost use Rattle.std.specs.Prelude.{List, ℕ};
    ghost use Rattle.sb_value.specs.declared.value.Value.{Value as Cell};

    ghost Value = { List (List ℕ × List Cell) };

    ghost view = { λ r. r.rows.items };
}

impl Rows {
    pub fn from_vec(rows: Vec<(RecKey, Tuple)>) -> Rows
        ensures { result ≡ rows.items }
    {
        Rows { rows }
    }

    pub fn into_vec(self) -> Vec<(RecKey, Tuple)>
        ensures { result.items ≡ self }
    {
        self.rows
    }

    pub fn as_slice(&self) -> &[(RecKey, Tuple)]
        ensures { result.now ≡ self.now }
    {
        &self.rows
    }
}

/// The answer to a line.
#[derive(Drop)]
pub enum Reply {
    /// The record key of the row after an insert or an update, and the other keys that were picked.
    Done { key: Option<RecKey>, picks: Picks },
    /// How many rows a command on matching rows changed itself, and all keys that were picked.
    Count { count: u64, picks: Picks },
    Rows { rows: Rows },
    Entries { image: Image },
    Lines { lines: Names },
    Refused(Refusal),
}
