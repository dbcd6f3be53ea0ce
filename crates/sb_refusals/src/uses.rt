//! What is in use.

ghost use Rattle.std.specs.Prelude.{◌≡◌, ◌==◌, ◌∷◌, [], true, false, cond, Some, None, option_map, option_copied, IfOk, IfErr};
ghost use Rattle.std.specs.List.{find};
ghost use Rattle.std.specs.Str.{bytes_eq};
ghost use Rattle.sb_relation.specs.Db.{Relation};
ghost use Rattle.sb_catalog.specs.Descriptors.{IsDescriptorOf};
ghost use Rattle.sb_plain.specs.State.{State, view};
ghost use Rattle.sb_plain.specs.Refusing.{ties_to, first_use};
ghost use Rattle.sb_refusals.specs.Catalogue.{above, is_damage, is_free};
ghost use Rattle.sb_refusals.specs.Uses.{user_at, user_in, IsStep};

use crate::catalogue::Catalogue;
use sb_catalog::{Attached, Descriptor};
use sb_fold::Refusal;
use sb_kinds::relation_of;
use sb_plain::Command;
use sb_rule::{Rule, Side};
use sb_value::Str;
use std::alloc::{AllocError, Global};

/// Whether the rule is one of a main instance or of a trigger, and names the relation.
fn ties_to(relation: &Str, rule: &Rule) -> bool
    ensures { result ≡ ties_to relation.now rule.now }
{
    match rule {
        Rule::JoinIndex {
            side: Side::Main,
            other,
            ..
        } => *other == *relation,
        Rule::Refers {
            side: Side::Main,
            other,
            ..
        } => *other == *relation,
        Rule::Trigger { action, .. } => *relation_of(action) == *relation,
        _ => false,
    }
}

fn tied_in<'a>(relation: &Str, attachments: &'a [Attached]) -> Option<&'a Attached>
    ensures { option_copied result ≡ find (λ a. ties_to relation.now a.rule) attachments.now }
{
    attachments
        .iter()
        .find(|attached| ties_to(relation, &attached.rule))
}

/// The first attachment that ties another relation to the one that is to go. The ties of a relation to itself go with it.
fn tied_elsewhere<'a>(
    relation: &Str,
    name: &Str,
    attachments: &'a [Attached],
) -> Option<&'a Attached>
    ensures { option_copied result ≡ cond (bytes_eq name.now relation.now) None (find (λ a. ties_to relation.now a.rule) attachments.now) }
{
    if *name == *relation {
        return None;
    }
    tied_in(relation, attachments)
}

fn coded_in(code: u16, attachments: &[Attached]) -> Option<&Attached>
    ensures { option_copied result ≡ find (λ a. a.code == code) attachments.now }
{
    attachments.iter().find(|attached| attached.code == code)
}

fn name_of(attached: Option<&Attached>) -> Result<Option<Str>, AllocError>
    ensures { IfOk result (λ x. x ≡ option_map (λ a. a.name) (option_copied attached.entry)) }
{
    match attached {
        Some(attached) => Ok(Some(attached.name.copy()?)),
        None => Ok(None),
    }
}

/// The name -, where the relation has this method.
fn method_user(alloc: Global, code: u16, descriptor: &Descriptor) -> Result<Option<Str>, AllocError>
    ensures { IfOk result (λ x. x ≡ cond (descriptor.now.method == code) (Some (45 ∷ [])) None) }
{
    if descriptor.method == code {
        Ok(Some(Str::from_string(String::from_str(alloc, "-")?)))
    } else {
        Ok(None)
    }
}

/// The first attachment of the relation that uses what the command takes away.
fn user_at(
    alloc: Global,
    command: &Command,
    name: &Str,
    descriptor: &Descriptor,
) -> Result<Option<Str>, AllocError>
    ensures { IfOk result (λ x. (r : Relation) → IsDescriptorOf r descriptor.now → x ≡ user_at command.now name.now r) }
{
    let attachments = descriptor.attachments.as_slice();
    match command {
        Command::Drop { relation } => name_of(tied_elsewhere(relation, name, attachments)),
        Command::Retire { method, code } => {
            if *method {
                method_user(alloc, *code, descriptor)
            } else {
                name_of(coded_in(*code, attachments))
            }
        }
        _ => Ok(None),
    }
}

/// What a relation is to the command.
#[derive(Drop)]
enum Step {
    /// It has an attachment that uses what the command takes away.
    Used(Str, Str),
    Unused(Str),
    /// There is none.
    End,
}

/// A step over the first relation behind a name.
fn step_over<C: Catalogue>(
    catalogue: &mut C,
    alloc: Global,
    command: &Command,
    after: Option<&Str>,
) -> Result<Step, Refusal>
    requires ready { C.is_ready catalogue.old }
    ensures step { IfOk result (λ x. (s : State) → C.sees s catalogue.old
        → IsStep command.now (above (option_copied after.entry) (view s)) x × C.sees s catalogue.new) }
    ensures free { IfErr result (λ r. is_free r ≡ true) }
    ensures undamaged { IfErr result (λ r. (s : State) → C.sees s catalogue.old → is_damage r ≡ false) }
    ensures fails { IfErr result (λ r. C.fails r catalogue.old catalogue.new) }
    ensures leads { C.leads catalogue.old catalogue.new }
    ensures ready { C.is_ready catalogue.new }
{
    let Some((name, descriptor)) = catalogue.next(alloc, after)? else {
        return Ok(Step::End);
    };
    let user = user_at(alloc, command, &name, &descriptor);
    drop(descriptor);
    match user {
        Ok(Some(user)) => Ok(Step::Used(name, user)),
        Ok(None) => Ok(Step::Unused(name)),
        Err(_) => {
            drop(name);
            Err(Refusal::NoMemory)
        }
    }
}

/// The first attachment of all relations that uses what the command takes away. There are fewer relations than turns.
fn first_user<C: Catalogue>(
    catalogue: &mut C,
    alloc: Global,
    command: &Command,
) -> Result<Option<(Str, Str)>, Refusal>
    requires ready { C.is_ready catalogue.old }
    ensures found { IfOk result (λ x. (s : State) → C.sees s catalogue.old → (x ≡ user_in command.now (view s)) × C.sees s catalogue.new) }
    ensures free { IfErr result (λ r. is_free r ≡ true) }
    ensures undamaged { IfErr result (λ r. (s : State) → C.sees s catalogue.old → is_damage r ≡ false) }
    ensures fails { IfErr result (λ r. C.fails r catalogue.old catalogue.new) }
    ensures leads { C.leads catalogue.old catalogue.new }
    ensures ready { C.is_ready catalogue.new }
{
    let mut after: Option<Str> = None;
    for _turn in 0..u64::MAX {
        let step = step_over(catalogue, alloc, command, after.as_ref());
        drop(after);
        match step? {
            Step::Used(relation, name) => return Ok(Some((relation, name))),
            Step::Unused(relation) => after = Some(relation),
            Step::End => return Ok(None),
        }
    }
    drop(after);
    Ok(None)
}

/// The attachment that uses what the command takes away, with its relation: the first one by the names of the relations and in call order.
pub(crate) fn first_use<C: Catalogue>(
    catalogue: &mut C,
    alloc: Global,
    command: &Command,
) -> Result<Option<(Str, Str)>, Refusal>
    requires ready { C.is_ready catalogue.old }
    ensures found { IfOk result (λ x. (s : State) → C.sees s catalogue.old → (x ≡ first_use (view s) command.now) × C.sees s catalogue.new) }
    ensures free { IfErr result (λ r. is_free r ≡ true) }
    ensures undamaged { IfErr result (λ r. (s : State) → C.sees s catalogue.old → is_damage r ≡ false) }
    ensures fails { IfErr result (λ r. C.fails r catalogue.old catalogue.new) }
    ensures leads { C.leads catalogue.old catalogue.new }
    ensures ready { C.is_ready catalogue.new }
{
    match command {
        Command::Drop { .. } => first_user(catalogue, alloc, command),
        Command::Retire { .. } => first_user(catalogue, alloc, command),
        _ => Ok(None),
    }
}
