//! What instances keep.

ghost use Rattle.std.specs.Prelude.{◌≡◌, IfOk};
ghost use Rattle.sb_ctx.specs.Attachment.{IsInstance};
ghost use Rattle.sb_rules.specs.Checks.{check, is_in, AreNames, Keeps};
ghost use Rattle.sb_rules.specs.Triggers.{trigger, KeepsTrigger};

use sb_ctx::Instance;
use sb_pred::Pred;
use sb_relation::{Action, Event, Rule, read_rule};
use sb_value::{Names, Schema, Str};
use std::alloc::{AllocError, Global};

/// The predicate that each row passes, and whether new rows are tested at the commit.
#[derive(Drop)]
pub struct KeptCheck {
    pub pred: Pred,
    pub deferred: bool,
}

pub fn check_kept(alloc: Global, inst: &Instance) -> Result<KeptCheck, AllocError>
    requires { IsInstance check inst.now }
    ensures { IfOk result (λ kept. Keeps inst.now kept.pred kept.deferred) }
{
    match read_rule(alloc, 5, inst.desc.as_slice())? {
        Some(Rule::Check { pred, deferred }) => Ok(KeptCheck { pred, deferred }),
        _ => unreachable!(),
    }
}

/// What sets the trigger off, what it does, and whether that waits for the commit.
#[derive(Drop)]
pub struct KeptTrigger {
    pub event: Event,
    pub pred: Pred,
    pub action: Action,
    pub deferred: bool,
}

pub fn trigger_kept(alloc: Global, inst: &Instance) -> Result<KeptTrigger, AllocError>
    requires { IsInstance trigger inst.now }
    ensures { IfOk result (λ kept. KeepsTrigger inst.now kept.event kept.pred kept.action kept.deferred) }
{
    match read_rule(alloc, 7, inst.desc.as_slice())? {
        Some(
            Rule::Trigger {
                event,
                pred,
                action,
                deferred,
            },
        ) => Ok(KeptTrigger {
            event,
            pred,
            action,
            deferred,
        }),
        _ => unreachable!(),
    }
}

fn is_known(names: &[Str], name: &Str) -> bool
    ensures { result ≡ is_in names.now name.now }
{
    names.iter().any(|known| known == name)
}

/// The names of the columns, each once, in the order of the columns.
pub fn names_of(alloc: Global, schema: &Schema) -> Result<Names, AllocError>
    ensures { IfOk result (AreNames schema.now) }
{
    let mut names = Vec::new(alloc);
    for column in schema.as_slice() {
        if !is_known(&names, &column.name) {
            names.push(column.name.copy()?)?;
        }
    }
    Ok(Names::from_vec(names))
}
