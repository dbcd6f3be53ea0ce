//! When items began.

ghost use Rattle.std.specs.Prelude.{◌≡◌, ◌∷◌, ◌++◌, [], OnOk, OnErr};

use std::alloc::{AllocError, Global};
use std::marker::Model;

/// The disk's clock when each item began: a command, or a bad line.
#[derive(Drop)]
pub struct Starts {
    moments: Vec<u64>,
}

impl Model for Starts {
    ghost use Rattle.std.specs.Prelude.{List, ℕ};

    ghost Value = { List ℕ };

    ghost view = { λ s. s.moments.items };
}

impl Starts {
    pub fn new(alloc: Global) -> Starts
        ensures { result ≡ [] }
    {
        Starts {
            moments: Vec::new(alloc),
        }
    }

    pub fn into_vec(self) -> Vec<u64>
        ensures { result.items ≡ self }
    {
        self.moments
    }

    pub fn as_slice(&self) -> &[u64]
        ensures { result.now ≡ self.now }
    {
        &self.moments
    }

    pub fn push(&mut self, moment: u64) -> Result<(), AllocError>
        ensures ok { OnOk result (self.new ≡ self.old ++ moment ∷ []) }
        ensures err { OnErr result (self.new ≡ self.old) }
    {
        self.moments.push(moment)?;
        Ok(())
    }
}
