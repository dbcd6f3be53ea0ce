//! Descriptors that were read, under their relations' names.

ghost use Rattle.std.specs.Prelude.{◌≡◌, [], Some, is_some, option_copied, bytes_eq, IfOk, IsOk, IsSome, OnOk, OnErr};
ghost use Rattle.std.specs.Map.{lookup};
ghost use Rattle.lru.specs.LruCache.{lru_cache, promoted, put_entries};

use crate::Descriptor;
use lru::LruCache;
use sb_value::Str;
use std::alloc::{AllocError, Global};
use std::marker::Model;
use std::num::NonZeroUsize;

/// The most descriptors in a cache.
const MOST: usize = 64;

/// At most 64 descriptors under their relations' names. Clauses see the pairs, the most recently used first.
#[derive(Drop)]
pub struct Cache {
    pairs: LruCache<Str, Descriptor>,
}

impl Model for Cache {
    ghost use Rattle.std.specs.Prelude.{◌≡◌, List, ℕ};
    ghost use Rattle.std.specs.Coded.{coded_list, coded×, coded_ℕ};
    ghost use Rattle.sb_catalog.specs.declared.descriptor.Descriptor.{Descriptor as Item};
    ghost use Rattle.sb_catalog.specs.contracts.descriptor.Descriptor as descriptor;

    ghost Value = { List (List ℕ × Item) };

    ghost coded = { coded_list (coded× (coded_list coded_ℕ) descriptor.the_row.coded) };

    ghost view = { λ c. c.pairs.entries };

    ghost invariant = { λ c. c.pairs.cap ≡ 64 };
}

impl Cache {
    pub fn new(alloc: Global) -> Result<Cache, AllocError>
        ensures { IfOk result (λ c. c ≡ []) }
    {
        let most = NonZeroUsize::new(MOST).unwrap();
        let pairs = LruCache::new(alloc, most)?;
        Ok(Cache { pairs })
    }

    /// Makes the pair of this name the most recently used one; whether there is one.
    pub fn promote(&mut self, name: &Str) -> bool
        ensures value { result ≡ is_some (lookup (bytes_eq name.now) self.old) }
        ensures pairs { self.new ≡ promoted (bytes_eq name.now) self.old }
    {
        self.pairs.promote(name)
    }

    /// The descriptor under this name, with the pairs in their order.
    pub fn peek(&self, name: &Str) -> Option<&Descriptor>
        ensures { option_copied result ≡ lookup (bytes_eq name.now) self.now }
    {
        self.pairs.peek(name)
    }

    /// The pair becomes the most recently used one, in the place of another of its name. The least recently used one goes
    /// where there are more than 64.
    pub fn put(&mut self, name: Str, descriptor: Descriptor) -> Result<(), AllocError>
        ensures pairs { OnOk result (self.new ≡ put_entries bytes_eq (lru_cache self.old 64) name descriptor) }
        ensures found { OnOk result (lookup (bytes_eq name) self.new ≡ Some descriptor) }
        ensures err { OnErr result (self.new ≡ self.old) }
        ensures succeeds { IsSome (lookup (bytes_eq name) self.old) → IsOk result }
    {
        match self.pairs.put(name, descriptor) {
            Ok(_) => Ok(()),
            Err(_) => Err(AllocError),
        }
    }

    pub fn empty(&mut self)
        ensures { self.new ≡ [] }
    {
        self.pairs.clear();
    }
}
