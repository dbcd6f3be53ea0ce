//! An entry that an attachment tests at the commit.

ghost use Rattle.sb_fold.specs.Outcome.{is_entry};
ghost use Rattle.sb_deferred.specs.Entries.{written, is_entry_equiv, is_entry_partial, entries_alike};

use sb_value::{Bytes, Str};
use std::hash::{Hash, Hasher};
use std::marker::Model;

/// The relation, the attachment's name on it, and the bytes that it wrote down.
#[derive(Drop)]
pub struct Entry {
    pub relation: Str,
    pub name: Str,
    pub entry: Bytes,
}

impl Model for Entry {
    ghost use Rattle.sb_fold.specs.Outcome.{Entry as Waiting};

    ghost Value = { Waiting };

    ghost view = { λ e. record { relation = e.relation; name = e.name; entry = e.entry } };
}

impl PartialEq for Entry {
    ghost eq = { is_entry };

    ghost laws = { is_entry_partial };

    fn eq(&self, other: &Entry) -> bool {
        self.relation == other.relation && self.name == other.name && self.entry == other.entry
    }
}

impl Eq for Entry {
    ghost laws = { is_entry_equiv };
}

impl Hash for Entry {
    ghost hash_input = { written };

    ghost respects_eq = { entries_alike };

    fn hash<H: Hasher>(&self, state: &mut H) {
        self.relation.hash(state);
        self.name.hash(state);
        self.entry.hash(state);
    }
}
