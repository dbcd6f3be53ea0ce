//! Descriptors and their attachments.

ghost use Rattle.std.specs.Prelude.{◌≡◌, ◌==◌, IfOk, length};

use sb_rule::Rule;
use sb_value::{Names, Schema, Str};
use std::alloc::{AllocError, Global};
use std::marker::Model;

/// An instance of an attachment: the owner of its pages and their root, its name and its rule.
#[derive(Drop)]
pub struct Attached {
    pub code: u16,
    pub owner: u16,
    pub root: u32,
    pub name: Str,
    pub rule: Rule,
}

impl Attached {
    pub fn copy(&self, alloc: Global) -> Result<Attached, AllocError>
        ensures { IfOk result (λ a. a ≡ self.now) }
    {
        Ok(Attached {
            code: self.code,
            owner: self.owner,
            root: self.root,
            name: self.name.copy()?,
            rule: self.rule.copy(alloc)?,
        })
    }
}

/// The attachments of a relation, in the order in which they are called.
#[derive(Drop)]
pub struct AttachedList {
    attachments: Vec<Attached>,
}

impl Model for AttachedList {
    ghost use Rattle.std.specs.Prelude.{List};
    ghost use Rattle.sb_catalog.specs.declared.descriptor.Attached.{Attached as Item};

    ghost Value = { List Item };

    ghost use Rattle.std.specs.Coded.{coded_list};
    ghost use Rattle.sb_catalog.specs.contracts.descriptor.Attached as attached;

    ghost coded = { coded_list attached.the_row.coded };

    ghost view = { λ a. a.attachments.items };
}

impl AttachedList {
    pub fn from_vec(attachments: Vec<Attached>) -> AttachedList
        ensures { result ≡ attachments.items }
    {
        AttachedList { attachments }
    }

    pub fn into_vec(self) -> Vec<Attached>
        ensures { result.items ≡ self }
    {
        self.attachments
    }

    pub fn as_slice(&self) -> &[Attached]
        ensures { result.now ≡ self.now }
    {
        &self.attachments
    }

    pub fn len(&self) -> usize
        ensures { result ≡ length self.now }
    {
        self.attachments.len()
    }

    pub fn is_empty(&self) -> bool
        ensures { result ≡ (length self.now == 0) }
    {
        self.attachments.is_empty()
    }

    pub fn copy(&self, alloc: Global) -> Result<AttachedList, AllocError>
        ensures { IfOk result (λ a. a ≡ self.now) }
    {
        let mut attachments = Vec::new(alloc);
        for attached in &self.attachments {
            attachments.push(attached.copy(alloc)?)?;
        }
        Ok(AttachedList { attachments })
    }
}

/// What the catalogue holds of a relation: the code of its storage method with the owner of its pages and their root,
/// its columns, its key and its attachments.
#[derive(Drop)]
pub struct Descriptor {
    pub method: u16,
    pub owner: u16,
    pub root: u32,
    pub schema: Schema,
    pub key: Names,
    pub attachments: AttachedList,
}

impl Descriptor {
    pub fn copy(&self, alloc: Global) -> Result<Descriptor, AllocError>
        ensures { IfOk result (λ d. d ≡ self.now) }
    {
        Ok(Descriptor {
            method: self.method,
            owner: self.owner,
            root: self.root,
            schema: self.schema.copy()?,
            key: self.key.copy()?,
            attachments: self.attachments.copy(alloc)?,
        })
    }
}
