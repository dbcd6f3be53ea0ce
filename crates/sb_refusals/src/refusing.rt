//! The first refusal of a command.

ghost use Rattle.std.specs.Prelude.{◌≡◌, true, false, IfOk, IfErr, IfSome};
ghost use Rattle.sb_plain.specs.State.{State, view};
ghost use Rattle.sb_plain.specs.Refusing.{first_of, refused};
ghost use Rattle.sb_refusals.specs.Catalogue.{is_damage, is_free};
ghost use Rattle.sb_refusals.specs.Refusing.{place_tests, name_tests, code_tests, kind_tests, seen_tests};
ghost use Rattle.sb_refusals.specs.Seen.{AreSeen};

use crate::catalogue::Catalogue;
use crate::codes::missing_code;
use crate::kinds::is_well_kinded;
use crate::limits::passes_limits;
use crate::names::{first_absent, first_existing, first_missing};
use crate::places::is_misplaced;
use crate::seen::{Named, see_named};
use crate::ties::is_mixed;
use crate::uses::first_use;
use sb_fold::Refusal;
use sb_plain::Command;
use sb_value::Str;
use std::alloc::Global;

fn copied(name: &Str) -> Result<Str, Refusal>
    ensures ok { IfOk result (λ n. n ≡ name.now) }
    ensures wants { IfErr result (λ r. r ≡ Refusal.NoMemory) }
{
    match name.copy() {
        Ok(name) => Ok(name),
        Err(_) => Err(Refusal::NoMemory),
    }
}

fn refuse_place<C: Catalogue>(catalogue: &C, command: &Command) -> Option<Refusal>
    ensures refused { (s : State) → C.sees s catalogue.now → result ≡ first_of (place_tests s command.now) }
    ensures tested { IfSome result (λ r. is_free r ≡ false) }
{
    if catalogue.is_down() {
        return Some(Refusal::Down);
    }
    if is_misplaced(catalogue, command) {
        return Some(Refusal::State);
    }
    None
}

fn refuse_names<C: Catalogue>(
    catalogue: &C,
    named: &Named,
    command: &Command,
) -> Result<Option<Refusal>, Refusal>
    ensures refused { IfOk result (λ r. (s : State) → C.sees s catalogue.now → AreSeen (view s) command.now named.now
        → r ≡ first_of (name_tests s command.now)) }
    ensures tested { IfOk result (λ r. IfSome r (λ x. is_free x ≡ false)) }
    ensures wants { IfErr result (λ r. r ≡ Refusal.NoMemory) }
{
    if let Some(name) = first_missing(named, command) {
        let name = copied(name)?;
        return Ok(Some(Refusal::NoRelation { name }));
    }
    if let Some(name) = first_existing(catalogue, named, command) {
        let name = copied(name)?;
        return Ok(Some(Refusal::Exists { name }));
    }
    if let Some(name) = first_absent(catalogue, named, command) {
        let name = copied(name)?;
        return Ok(Some(Refusal::NoName { name }));
    }
    Ok(None)
}

fn refuse_codes<C: Catalogue>(
    catalogue: &mut C,
    alloc: Global,
    command: &Command,
) -> Result<Option<Refusal>, Refusal>
    requires ready { C.is_ready catalogue.old }
    ensures refused { IfOk result (λ r. (s : State) → C.sees s catalogue.old
        → (r ≡ first_of (code_tests s command.now)) × C.sees s catalogue.new) }
    ensures tested { IfOk result (λ r. IfSome r (λ x. is_free x ≡ false)) }
    ensures free { IfErr result (λ r. is_free r ≡ true) }
    ensures undamaged { IfErr result (λ r. (s : State) → C.sees s catalogue.old → is_damage r ≡ false) }
    ensures fails { IfErr result (λ r. C.fails r catalogue.old catalogue.new) }
    ensures leads { C.leads catalogue.old catalogue.new }
    ensures ready { C.is_ready catalogue.new }
{
    if let Some(code) = missing_code(catalogue, command) {
        return Ok(Some(Refusal::NoExtension { code }));
    }
    match first_use(catalogue, alloc, command)? {
        Some((relation, name)) => Ok(Some(Refusal::InUse { relation, name })),
        None => Ok(None),
    }
}

fn refuse_kinds<C: Catalogue>(catalogue: &C, named: &Named, command: &Command) -> Option<Refusal>
    ensures refused { (s : State) → C.sees s catalogue.now → AreSeen (view s) command.now named.now
        → result ≡ first_of (kind_tests (C.extensions catalogue.now) s command.now) }
    ensures tested { IfSome result (λ r. is_free r ≡ false) }
{
    if !is_well_kinded(catalogue, named, command) {
        return Some(Refusal::Mistyped);
    }
    if is_mixed(catalogue, named, command) {
        return Some(Refusal::Mixed);
    }
    if passes_limits(catalogue, named, command) {
        return Some(Refusal::Limit);
    }
    None
}

/// The first refusal of a command whose relations are seen, and that has a place here.
fn refuse_seen<C: Catalogue>(
    catalogue: &mut C,
    alloc: Global,
    named: &Named,
    command: &Command,
) -> Result<Option<Refusal>, Refusal>
    requires ready { C.is_ready catalogue.old }
    ensures refused { IfOk result (λ r. (s : State) → C.sees s catalogue.old → AreSeen (view s) command.now named.now
        → (r ≡ first_of (seen_tests (C.extensions catalogue.old) s command.now)) × C.sees s catalogue.new) }
    ensures tested { IfOk result (λ r. IfSome r (λ x. is_free x ≡ false)) }
    ensures free { IfErr result (λ r. is_free r ≡ true) }
    ensures undamaged { IfErr result (λ r. (s : State) → C.sees s catalogue.old → is_damage r ≡ false) }
    ensures fails { IfErr result (λ r. C.fails r catalogue.old catalogue.new) }
    ensures leads { C.leads catalogue.old catalogue.new }
    ensures ready { C.is_ready catalogue.new }
{
    if let Some(refusal) = refuse_names(catalogue, named, command)? {
        return Ok(Some(refusal));
    }
    if let Some(refusal) = refuse_codes(catalogue, alloc, command)? {
        return Ok(Some(refusal));
    }
    Ok(refuse_kinds(catalogue, named, command))
}

/// The first refusal of a command before anything changes, in the order of their numbers; or None where it may be carried out.
pub fn refuse<C: Catalogue>(
    catalogue: &mut C,
    alloc: Global,
    command: &Command,
) -> Result<Option<Refusal>, Refusal>
    requires ready { C.is_ready catalogue.old }
    ensures refused { IfOk result (λ r. (s : State) → C.sees s catalogue.old
        → (r ≡ refused (C.extensions catalogue.old) s command.now) × C.sees s catalogue.new) }
    ensures tested { IfOk result (λ r. IfSome r (λ x. is_free x ≡ false)) }
    ensures free { IfErr result (λ r. is_free r ≡ true) }
    ensures undamaged { IfErr result (λ r. (s : State) → C.sees s catalogue.old → is_damage r ≡ false) }
    ensures fails { IfErr result (λ r. C.fails r catalogue.old catalogue.new) }
    ensures leads { C.leads catalogue.old catalogue.new }
    ensures ready { C.is_ready catalogue.new }
{
    if let Some(refusal) = refuse_place(catalogue, command) {
        return Ok(Some(refusal));
    }
    let named = see_named(catalogue, alloc, command)?;
    let made = refuse_seen(catalogue, alloc, &named, command);
    drop(named);
    made
}
