//! Lists that boxed calls take and give.

ghost use Rattle.std.specs.Prelude.{◌≡◌, [], IfOk};

use sb_forms::Action;
use sb_value::{Bytes, RecKey};
use std::alloc::{AllocError, Global};
use std::marker::Model;

/// Record keys, in rising order where they answer a find.
#[derive(Drop)]
pub struct Keys {
    keys: Vec<RecKey>,
}

impl Model for Keys {
    ghost use Rattle.std.specs.Prelude.{List, ℕ};

    ghost Value = { List (List ℕ) };

    ghost view = { λ l. l.keys.items };
}

impl Keys {
    pub fn new(alloc: Global) -> Keys
        ensures { result ≡ [] }
    {
        Keys {
            keys: Vec::new(alloc),
        }
    }

    pub fn from_vec(keys: Vec<RecKey>) -> Keys
        ensures { result ≡ keys.items }
    {
        Keys { keys }
    }

    pub fn into_vec(self) -> Vec<RecKey>
        ensures { result.items ≡ self }
    {
        self.keys
    }

    pub fn as_slice(&self) -> &[RecKey]
        ensures { result.now ≡ self.now }
    {
        &self.keys
    }

    pub fn copy(&self) -> Result<Keys, AllocError>
        ensures { IfOk result (λ keys. keys ≡ self.now) }
    {
        let mut keys = Vec::new(*self.keys.allocator());
        for key in &self.keys {
            keys.push(key.copy()?)?;
        }
        Ok(Keys { keys })
    }
}

/// Entries that are tested at the commit.
#[derive(Drop)]
pub struct Checks {
    entries: Vec<Bytes>,
}

impl Model for Checks {
    ghost use Rattle.std.specs.Prelude.{List, ℕ};

    ghost Value = { List (List ℕ) };

    ghost view = { λ l. l.entries.items };
}

impl Checks {
    pub fn new(alloc: Global) -> Checks
        ensures { result ≡ [] }
    {
        Checks {
            entries: Vec::new(alloc),
        }
    }

    pub fn from_vec(entries: Vec<Bytes>) -> Checks
        ensures { result ≡ entries.items }
    {
        Checks { entries }
    }

    pub fn into_vec(self) -> Vec<Bytes>
        ensures { result.items ≡ self }
    {
        self.entries
    }

    pub fn as_slice(&self) -> &[Bytes]
        ensures { result.now ≡ self.now }
    {
        &self.entries
    }
}

/// Actions, in the order in which they run.
#[derive(Drop)]
pub struct Actions {
    actions: Vec<Action>,
}

impl Model for Actions {
    ghost use Rattle.std.specs.Prelude.{List};
    ghost use Rattle.sb_rule.specs.declared.action.Action.{Action};

    ghost Value = { List Action };

    ghost view = { λ l. l.actions.items };
}

impl Actions {
    pub fn new(alloc: Global) -> Actions
        ensures { result ≡ [] }
    {
        Actions {
            actions: Vec::new(alloc),
        }
    }

    pub fn from_vec(actions: Vec<Action>) -> Actions
        ensures { result ≡ actions.items }
    {
        Actions { actions }
    }

    pub fn into_vec(self) -> Vec<Action>
        ensures { result.items ≡ self }
    {
        self.actions
    }

    pub fn as_slice(&self) -> &[Action]
        ensures { result.now ≡ self.now }
    {
        &self.actions
    }
}
