//! What an attachment holds.

ghost use Rattle.std.specs.Prelude.{◌≡◌, ◌==◌, length};

use sb_value::RecKey;
use std::marker::Model;

/// Pairs of keys, in rising order.
#[derive(Drop)]
pub struct Entries {
    entries: Vec<(RecKey, RecKey)>,
}

impl Model for Entries {
    ghost use Rattle.std.specs.Prelude.{List, ℕ};

    ghost Value = { List (List ℕ × List ℕ) };

    ghost view = { λ e. e.entries.items };
}

impl Entries {
    pub fn from_vec(entries: Vec<(RecKey, RecKey)>) -> Entries
        ensures { result ≡ entries.items }
    {
        Entries { entries }
    }

    pub fn into_vec(self) -> Vec<(RecKey, RecKey)>
        ensures { result.items ≡ self }
    {
        self.entries
    }

    pub fn as_slice(&self) -> &[(RecKey, RecKey)]
        ensures { result.now ≡ self.now }
    {
        &self.entries
    }

    pub fn len(&self) -> usize
        ensures { result ≡ length self.now }
    {
        self.entries.len()
    }

    pub fn is_empty(&self) -> bool
        ensures { result ≡ (length self.now == 0) }
    {
        self.entries.is_empty()
    }
}

/// Counts and sums over the rows.
#[derive(Drop)]
pub struct Sums {
    sums: Vec<i128>,
}

impl Model for Sums {
    ghost use Rattle.std.specs.Prelude.{List, ℤ};

    ghost Value = { List ℤ };

    ghost view = { λ s. s.sums.items };
}

impl Sums {
    pub fn from_vec(sums: Vec<i128>) -> Sums
        ensures { result ≡ sums.items }
    {
        Sums { sums }
    }

    pub fn into_vec(self) -> Vec<i128>
        ensures { result.items ≡ self }
    {
        self.sums
    }

    pub fn as_slice(&self) -> &[i128]
        ensures { result.now ≡ self.now }
    {
        &self.sums
    }

    pub fn len(&self) -> usize
        ensures { result ≡ length self.now }
    {
        self.sums.len()
    }

    pub fn is_empty(&self) -> bool
        ensures { result ≡ (length self.now == 0) }
    {
        self.sums.is_empty()
    }
}

/// The content of an attachment.
#[derive(Drop)]
pub struct Image {
    pub entries: Entries,
    pub sums: Sums,
}
