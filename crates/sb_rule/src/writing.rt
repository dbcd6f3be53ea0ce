//! Rules written to bytes.

ghost use Rattle.std.specs.Prelude.{◌≡◌, ◌≤◌, ◌∷◌, ◌++◌, [], OnOk, OnErr, length};
ghost use Rattle.sb_pred.specs.Bytes.{Extends};
ghost use Rattle.sb_pred.specs.Spelling.{name_spelling, term_spelling, IsShortTerm, IsStorableName, IsStorableTerm};
ghost use Rattle.sb_rule.specs.Spelling.{flag_byte, side_byte, mode_byte, event_byte, number_spelling, assignment_spelling, names_spelling, terms_spelling, pairs_spelling, pair_spelling, tie_spelling, action_spelling, rule_spelling, IsShortName, IsShortList, IsShortPair, IsShortAssignment, IsShortAction, IsShortTie, IsShortRule, IsStorablePair, IsStorableAssignment, IsStorableAction, IsStorableTie, IsStorableRule};

use crate::{Action, Event, Mode, Pairs, Rule, Side, Terms};
use sb_pred::{Pred, Term, append_name, append_term, write_pred};
use sb_value::{Bytes, Names, Str};
use std::alloc::AllocError;

fn append_names(names: &Names, out: &mut Bytes) -> Result<(), AllocError>
    requires { IsShortList IsShortName names.now }
    ensures ok { OnOk result (out.new ≡ out.old ++ names_spelling names.now) }
    ensures err { OnErr result (Extends out.old out.new) }
    ensures storable { OnOk result (IsShortList IsStorableName names.now) }
{
    out.push(names.len() as u8)?;
    for name in names.as_slice() {
        append_name(name, out)?;
    }
    Ok(())
}

fn append_terms(terms: &Terms, out: &mut Bytes) -> Result<(), AllocError>
    requires { IsShortList IsShortTerm terms.now }
    ensures ok { OnOk result (out.new ≡ out.old ++ terms_spelling terms.now) }
    ensures err { OnErr result (Extends out.old out.new) }
    ensures storable { OnOk result (IsShortList IsStorableTerm terms.now) }
{
    out.push(terms.len() as u8)?;
    for term in terms.as_slice() {
        append_term(term, out)?;
    }
    Ok(())
}

fn append_pair(pair: &(Str, Term), out: &mut Bytes) -> Result<(), AllocError>
    requires { IsShortPair pair.now }
    ensures ok { OnOk result (out.new ≡ out.old ++ pair_spelling pair.now) }
    ensures err { OnErr result (Extends out.old out.new) }
    ensures storable { OnOk result (IsStorablePair pair.now) }
{
    append_name(&pair.0, out)?;
    append_term(&pair.1, out)
}

fn append_pairs(pairs: &Pairs, out: &mut Bytes) -> Result<(), AllocError>
    requires { IsShortList IsShortPair pairs.now }
    ensures ok { OnOk result (out.new ≡ out.old ++ pairs_spelling pairs.now) }
    ensures err { OnErr result (Extends out.old out.new) }
    ensures storable { OnOk result (IsShortList IsStorablePair pairs.now) }
{
    out.push(pairs.len() as u8)?;
    for pair in pairs.as_slice() {
        append_pair(pair, out)?;
    }
    Ok(())
}

fn append_assignment(
    relation: &Str,
    column: &Str,
    term: &Term,
    pairs: &Pairs,
    out: &mut Bytes,
) -> Result<(), AllocError>
    requires { IsShortAssignment (relation.now, column.now, term.now, pairs.now) }
    ensures ok { OnOk result (out.new ≡ out.old ++ assignment_spelling (relation.now, column.now, term.now, pairs.now)) }
    ensures err { OnErr result (Extends out.old out.new) }
    ensures storable { OnOk result (IsStorableAssignment (relation.now, column.now, term.now, pairs.now)) }
{
    append_name(relation, out)?;
    append_name(column, out)?;
    append_term(term, out)?;
    append_pairs(pairs, out)
}

fn append_action(action: &Action, out: &mut Bytes) -> Result<(), AllocError>
    requires { IsShortAction action.now }
    ensures ok { OnOk result (out.new ≡ out.old ++ action_spelling action.now) }
    ensures err { OnErr result (Extends out.old out.new) }
    ensures storable { OnOk result (IsStorableAction action.now) }
{
    match action {
        Action::Insert { relation, terms } => {
            out.push(1)?;
            append_name(relation, out)?;
            append_terms(terms, out)
        }
        Action::Delete { relation, pairs } => {
            out.push(2)?;
            append_name(relation, out)?;
            append_pairs(pairs, out)
        }
        Action::Set {
            relation,
            column,
            term,
            pairs,
        } => {
            out.push(3)?;
            append_assignment(relation, column, term, pairs, out)
        }
        Action::Add {
            relation,
            column,
            term,
            pairs,
        } => {
            out.push(4)?;
            append_assignment(relation, column, term, pairs, out)
        }
    }
}

fn append_tie(
    columns: &Names,
    other: &Str,
    others: &Names,
    out: &mut Bytes,
) -> Result<(), AllocError>
    requires { IsShortTie (columns.now, other.now, others.now) }
    ensures ok { OnOk result (out.new ≡ out.old ++ tie_spelling (columns.now, other.now, others.now)) }
    ensures err { OnErr result (Extends out.old out.new) }
    ensures storable { OnOk result (IsStorableTie (columns.now, other.now, others.now)) }
{
    append_names(columns, out)?;
    append_name(other, out)?;
    append_names(others, out)
}

fn byte_of_side(side: Side) -> u8
    ensures { result ≡ side_byte side }
{
    match side {
        Side::Main => 0,
        Side::Mirror => 1,
    }
}

fn byte_of_mode(mode: Mode) -> u8
    ensures { result ≡ mode_byte mode }
{
    match mode {
        Mode::Restrict => 0,
        Mode::Cascade => 1,
    }
}

fn byte_of_event(event: Event) -> u8
    ensures { result ≡ event_byte event }
{
    match event {
        Event::Insert => 1,
        Event::Delete => 2,
        Event::Update => 3,
    }
}

fn append_flag(flag: bool, out: &mut Bytes) -> Result<(), AllocError>
    ensures ok { OnOk result (out.new ≡ out.old ++ flag_byte flag ∷ []) }
    ensures err { OnErr result (Extends out.old out.new) }
{
    out.push(if flag { 1 } else { 0 })
}

#[tactic(auto, unfolding(crate::specs::Spelling::number_spelling))]
fn append_number(number: i64, out: &mut Bytes) -> Result<(), AllocError>
    ensures ok { OnOk result (out.new ≡ out.old ++ number_spelling number) }
    ensures err { OnErr result (Extends out.old out.new) }
{
    out.extend(&number.to_be_bytes())
}

fn append_join_index(
    side: Side,
    columns: &Names,
    other: &Str,
    others: &Names,
    out: &mut Bytes,
) -> Result<(), AllocError>
    requires { IsShortRule (Rule.JoinIndex side columns.now other.now others.now) }
    ensures ok { OnOk result (out.new ≡ out.old ++ rule_spelling (Rule.JoinIndex side columns.now other.now others.now)) }
    ensures err { OnErr result (Extends out.old out.new) }
    ensures storable { OnOk result (IsStorableRule (Rule.JoinIndex side columns.now other.now others.now)) }
{
    out.push(byte_of_side(side))?;
    append_tie(columns, other, others, out)
}

fn append_stats(column: &Str, low: i64, width: i64, out: &mut Bytes) -> Result<(), AllocError>
    requires { IsShortRule (Rule.Stats column.now low width) }
    ensures ok { OnOk result (out.new ≡ out.old ++ rule_spelling (Rule.Stats column.now low width)) }
    ensures err { OnErr result (Extends out.old out.new) }
    ensures storable { OnOk result (IsStorableRule (Rule.Stats column.now low width)) }
{
    append_name(column, out)?;
    append_number(low, out)?;
    append_number(width, out)
}

fn append_check(pred: &Pred, deferred: bool, out: &mut Bytes) -> Result<(), AllocError>
    requires { IsShortRule (Rule.Check pred.now deferred) }
    ensures ok { OnOk result (out.new ≡ out.old ++ rule_spelling (Rule.Check pred.now deferred)) }
    ensures err { OnErr result (Extends out.old out.new) }
    ensures storable { OnOk result (IsStorableRule (Rule.Check pred.now deferred)) }
{
    append_flag(deferred, out)?;
    write_pred(pred, out)
}

fn append_refers(
    side: Side,
    columns: &Names,
    other: &Str,
    others: &Names,
    mode: Mode,
    deferred: bool,
    out: &mut Bytes,
) -> Result<(), AllocError>
    requires { IsShortRule (Rule.Refers side columns.now other.now others.now mode deferred) }
    ensures ok { OnOk result (out.new ≡ out.old ++ rule_spelling (Rule.Refers side columns.now other.now others.now mode deferred)) }
    ensures err { OnErr result (Extends out.old out.new) }
    ensures storable { OnOk result (IsStorableRule (Rule.Refers side columns.now other.now others.now mode deferred)) }
{
    out.push(byte_of_side(side))?;
    out.push(byte_of_mode(mode))?;
    append_flag(deferred, out)?;
    append_tie(columns, other, others, out)
}

fn append_trigger(
    event: Event,
    pred: &Pred,
    action: &Action,
    deferred: bool,
    out: &mut Bytes,
) -> Result<(), AllocError>
    requires { IsShortRule (Rule.Trigger event pred.now action.now deferred) }
    ensures ok { OnOk result (out.new ≡ out.old ++ rule_spelling (Rule.Trigger event pred.now action.now deferred)) }
    ensures err { OnErr result (Extends out.old out.new) }
    ensures storable { OnOk result (IsStorableRule (Rule.Trigger event pred.now action.now deferred)) }
{
    out.push(byte_of_event(event))?;
    append_flag(deferred, out)?;
    write_pred(pred, out)?;
    append_action(action, out)
}

fn append_rule(rule: &Rule, out: &mut Bytes) -> Result<(), AllocError>
    requires { IsShortRule rule.now }
    ensures ok { OnOk result (out.new ≡ out.old ++ rule_spelling rule.now) }
    ensures err { OnErr result (Extends out.old out.new) }
    ensures storable { OnOk result (IsStorableRule rule.now) }
{
    match rule {
        Rule::TreeIndex { columns, unique } => {
            append_flag(*unique, out)?;
            append_names(columns, out)
        }
        Rule::HashIndex { columns } => append_names(columns, out),
        Rule::JoinIndex {
            side,
            columns,
            other,
            others,
        } => append_join_index(*side, columns, other, others, out),
        Rule::Stats { column, low, width } => append_stats(column, *low, *width, out),
        Rule::Check { pred, deferred } => append_check(pred, *deferred, out),
        Rule::Refers {
            side,
            columns,
            other,
            others,
            mode,
            deferred,
        } => append_refers(*side, columns, other, others, *mode, *deferred, out),
        Rule::Trigger {
            event,
            pred,
            action,
            deferred,
        } => append_trigger(*event, pred, action, *deferred, out),
        Rule::Foreign { desc, .. } => out.extend(desc.as_slice()),
    }
}

/// Adds the rule's bytes. Where memory runs out all stays as it was.
pub fn write_rule(rule: &Rule, out: &mut Bytes) -> Result<(), AllocError>
    requires { IsShortRule rule.now }

    ensures ok { OnOk result (out.new ≡ out.old ++ rule_spelling rule.now) }
    ensures err { OnErr result (out.new ≡ out.old) }

    // What is written within the limits can be read again.
    ensures storable { OnOk result (IsStorableRule rule.now) }
{
    let start = out.len();
    let written = append_rule(rule, out);
    if written.is_err() {
        out.truncate(start);
    }
    written
}
