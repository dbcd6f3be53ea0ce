//! The queue of a transaction.

ghost use Rattle.std.specs.Prelude.{◌≡◌, ◌<◌, ◌^◌, ◌↔◌, [], length, slice_get, IsTrue, IsSome, OnOk, OnErr};
ghost use Rattle.std.specs.Option.{option_copied, option_map};

use crate::entry::Entry;
use indexmap::IndexSet;
use sb_relation::Action;
use sb_value::{Bytes, Str};
use std::alloc::{AllocError, Global};
use std::marker::Model;

/// What waits for the commit, in the order in which it came. An entry waits once, where it first came.
#[derive(Drop)]
pub struct Queue {
    actions: Vec<Action>,
    entries: IndexSet<Entry>,
}

impl Model for Queue {
    ghost use Rattle.sb_fold.specs.Outcome.{Queue as Waiting};

    ghost Value = { Waiting };

    ghost view = { λ q. record { actions = q.actions.items; entries = q.entries.keys } };
}

/// How much waited at some moment.
#[derive(Clone, Copy, Debug, PartialEq, Eq)]
pub struct QueueMark {
    actions: usize,
    entries: usize,
}

impl Queue {
    ghost use Rattle.sb_deferred.specs.Waiting.{nothing, with_action, with_check, check_of, mark_of, cut_at, IsWithin};

    pub fn new(alloc: Global) -> Queue
        ensures { result ≡ nothing }
    {
        Queue {
            actions: Vec::new(alloc),
            entries: IndexSet::new(alloc),
        }
    }

    /// Puts an action behind the others.
    pub fn push_action(&mut self, action: Action) -> Result<(), AllocError>
        ensures ok { OnOk result (self.new ≡ with_action self.old action) }
        ensures err { OnErr result (self.new ≡ self.old) }
    {
        self.actions.push(action)?;
        Ok(())
    }

    /// Puts an entry behind the others, unless it waits already.
    pub fn push_check(&mut self, relation: Str, name: Str, entry: Bytes) -> Result<(), AllocError>
        ensures ok { OnOk result (self.new ≡ with_check self.old (check_of relation name entry)) }
        ensures err { OnErr result (self.new ≡ self.old) }
    {
        self.entries.insert(Entry {
            relation,
            name,
            entry,
        })?;
        Ok(())
    }

    /// The action that came as the i-th, counted from 0.
    pub fn action(&self, i: u64) -> Option<&Action>
        ensures action { option_copied result ≡ slice_get self.now.actions i }
        ensures found { IsSome result ↔ (i < length self.now.actions) }
        ensures few { length self.now.actions < 2 ^ 64 }
    {
        self.actions.get(i as usize)
    }

    /// The entry that came as the i-th, counted from 0, with its relation and its attachment's name.
    pub fn check(&self, i: u64) -> Option<(&Str, &Str, &Bytes)>
        ensures check { option_map (λ c. check_of c.0.now c.1.now c.2.now) result ≡ slice_get self.now.entries i }
        ensures found { IsSome result ↔ (i < length self.now.entries) }
    {
        let entry = self.entries.get_index(i as usize)?;
        Some((&entry.relation, &entry.name, &entry.entry))
    }

    /// How many entries wait.
    pub fn checks(&self) -> usize
        ensures { result ≡ length self.now.entries }
    {
        self.entries.len()
    }

    pub fn mark(&self) -> QueueMark
        ensures { result ≡ mark_of self.now }
    {
        QueueMark {
            actions: self.actions.len(),
            entries: self.entries.len(),
        }
    }

    /// Takes out what came after the mark.
    pub fn cut_back(&mut self, mark: QueueMark)
        requires { IsWithin mark self.old }
        ensures { self.new ≡ cut_at self.old mark }
    {
        self.actions.truncate(mark.actions);
        self.entries.truncate(mark.entries);
    }

    /// Whether an action waits.
    pub fn queued(&self) -> bool
        ensures { IsTrue result ↔ (0 < length self.now.actions) }
    {
        !self.actions.is_empty()
    }

    pub fn clear(&mut self)
        ensures { self.new ≡ nothing }
    {
        self.actions.clear();
        self.entries.clear();
    }
}
