//! The relations that a command names, by their descriptors.

ghost use Rattle.std.specs.Prelude.{◌≡◌, ◌-◌, ◌^◌, ℕ, min, Some, Option, option_map, option_copied, is_some, map, length, IfOk, IfErr, true, false};
ghost use Rattle.std.specs.List.{find};
ghost use Rattle.std.specs.Str.{bytes_eq};
ghost use Rattle.sb_relation.specs.Db.{Relation};
ghost use Rattle.sb_catalog.specs.Descriptors.{described, standing};
ghost use Rattle.sb_plain.specs.State.{State, view};
ghost use Rattle.sb_refusals.specs.Catalogue.{is_damage, is_free};
ghost use Rattle.sb_refusals.specs.Lengths.{is_over};
ghost use Rattle.sb_refusals.specs.Named.{own_of, other_of};
ghost use Rattle.sb_refusals.specs.Seen.{IsSeen, AreSeen, columns_of, attachments_of, relation_named};

use crate::catalogue::Catalogue;
use sb_catalog::{Attached, Descriptor, descriptor_len};
use sb_fold::Refusal;
use sb_kinds::relation_of;
use sb_plain::Command;
use sb_rule::Rule;
use sb_value::{Schema, Str};
use std::alloc::Global;

/// The bytes of a descriptor at most.
const MOST_BYTES: usize = 1900;

/// A relation by its descriptor, where it is there; and no columns, where it isn't.
#[derive(Drop)]
pub(crate) struct Seen {
    descriptor: Option<Descriptor>,
    none: Schema,
}

impl Seen {
    pub(crate) fn is_there(&self) -> bool
        ensures { (r : Option Relation) → IsSeen r self.now → result ≡ is_some r }
    {
        self.descriptor.is_some()
    }

    pub(crate) fn schema(&self) -> &Schema
        ensures { (r : Option Relation) → IsSeen r self.now → result.now ≡ columns_of r }
    {
        match &self.descriptor {
            Some(descriptor) => &descriptor.schema,
            None => &self.none,
        }
    }

    pub(crate) fn attachments(&self) -> &[Attached]
        ensures { (r : Option Relation) → IsSeen r self.now → map described result.now ≡ map standing (attachments_of r) }
    {
        match &self.descriptor {
            Some(descriptor) => descriptor.attachments.as_slice(),
            None => &[],
        }
    }

    /// The rule of the attachment of this name.
    pub(crate) fn rule(&self, name: &Str) -> Option<&Rule>
        ensures { (r : Option Relation) → IsSeen r self.now
            → option_copied result ≡ option_map (λ a. a.rule) (find (λ a. bytes_eq a.name name.now) (attachments_of r)) }
    {
        rule_in(find_attached(self.attachments(), name))
    }

    /// Whether the descriptor is too large with so many bytes more; where there are more than 2^64 - 1, the number stands for them.
    pub(crate) fn is_over(&self, more: usize) -> bool
        ensures { (r : Option Relation) (n : ℕ) → IsSeen r self.now → more ≡ min n (2 ^ 64 - 1) → result ≡ is_over r n }
    {
        match &self.descriptor {
            Some(descriptor) => descriptor_len(descriptor).saturating_add(more) > MOST_BYTES,
            None => false,
        }
    }

    pub(crate) fn method(&self) -> Option<u16>
        ensures { (r : Option Relation) → IsSeen r self.now → result ≡ option_map (λ r. r.method) r }
    {
        match &self.descriptor {
            Some(descriptor) => Some(descriptor.method),
            None => None,
        }
    }
}

fn find_attached<'a>(attachments: &'a [Attached], name: &Str) -> Option<&'a Attached>
    ensures { option_copied result ≡ find (λ a. bytes_eq a.name name.now) attachments.now }
{
    attachments.iter().find(|attached| attached.name == *name)
}

fn rule_in(attached: Option<&Attached>) -> Option<&Rule>
    ensures { option_copied result ≡ option_map (λ a. a.rule) (option_copied attached.entry) }
{
    match attached {
        Some(attached) => Some(&attached.rule),
        None => None,
    }
}

/// The relation that a command makes or is about, and the second one that a rule names.
#[derive(Drop)]
pub(crate) struct Named {
    pub(crate) own: Seen,
    pub(crate) other: Seen,
}

pub(crate) fn own_relation(command: &Command) -> Option<&Str>
    ensures { option_copied result ≡ own_of command.now }
{
    match command {
        Command::Create { relation, .. } => Some(relation),
        Command::Drop { relation } => Some(relation),
        Command::Attach { relation, .. } => Some(relation),
        Command::Detach { relation, .. } => Some(relation),
        Command::Insert { relation, .. } => Some(relation),
        Command::Delete { relation, .. } => Some(relation),
        Command::Update { relation, .. } => Some(relation),
        Command::Act { action } => Some(relation_of(action)),
        Command::Get { relation, .. } => Some(relation),
        Command::Scan { relation, .. } => Some(relation),
        Command::Lookup { relation, .. } => Some(relation),
        Command::Range { relation, .. } => Some(relation),
        Command::Entries { relation, .. } => Some(relation),
        Command::Show { relation } => Some(relation),
        Command::Register { .. } => None,
        Command::Retire { .. } => None,
        Command::Begin => None,
        Command::Commit => None,
        Command::Abort => None,
        Command::Savepoint { .. } => None,
        Command::Rollback { .. } => None,
        Command::Tables => None,
        Command::Checkpoint => None,
    }
}

pub(crate) fn other_relation(command: &Command) -> Option<&Str>
    ensures { option_copied result ≡ other_of command.now }
{
    match command {
        Command::Attach { rule, .. } => sb_kinds::other_relation(rule),
        _ => None,
    }
}

fn see<C: Catalogue>(catalogue: &mut C, alloc: Global, name: Option<&Str>) -> Result<Seen, Refusal>
    requires ready { C.is_ready catalogue.old }
    ensures seen { IfOk result (λ seen. (s : State) → C.sees s catalogue.old
        → IsSeen (relation_named (view s) (option_copied name.entry)) seen × C.sees s catalogue.new) }
    ensures free { IfErr result (λ r. is_free r ≡ true) }
    ensures undamaged { IfErr result (λ r. (s : State) → C.sees s catalogue.old → is_damage r ≡ false) }
    ensures fails { IfErr result (λ r. C.fails r catalogue.old catalogue.new) }
    ensures leads { C.leads catalogue.old catalogue.new }
    ensures ready { C.is_ready catalogue.new }
{
    let Some(name) = name else {
        return Ok(Seen {
            descriptor: None,
            none: Schema::from_vec(Vec::new(alloc)),
        });
    };
    let descriptor = catalogue.descriptor(alloc, name)?;
    Ok(Seen {
        descriptor,
        none: Schema::from_vec(Vec::new(alloc)),
    })
}

pub(crate) fn see_named<C: Catalogue>(
    catalogue: &mut C,
    alloc: Global,
    command: &Command,
) -> Result<Named, Refusal>
    requires ready { C.is_ready catalogue.old }
    ensures seen { IfOk result (λ named. (s : State) → C.sees s catalogue.old → AreSeen (view s) command.now named × C.sees s catalogue.new) }
    ensures free { IfErr result (λ r. is_free r ≡ true) }
    ensures undamaged { IfErr result (λ r. (s : State) → C.sees s catalogue.old → is_damage r ≡ false) }
    ensures fails { IfErr result (λ r. C.fails r catalogue.old catalogue.new) }
    ensures leads { C.leads catalogue.old catalogue.new }
    ensures ready { C.is_ready catalogue.new }
{
    let own = see(catalogue, alloc, own_relation(command))?;
    let other = see(catalogue, alloc, other_relation(command))?;
    Ok(Named { own, other })
}
