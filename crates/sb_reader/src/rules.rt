//! Readers of the rules of attachments, which stand behind their words and places.

ghost use Rattle.sb_tokens.specs.Rows.{tokens_of};
ghost use Rattle.sb_phrases.specs.Gives.{Gives, beside};
ghost use Rattle.sb_reader.specs.Commands as commands;
ghost use Rattle.sb_reader.specs.Rules.{keyed_beside, twice_keyed_beside};
ghost use Rattle.sb_reader.specs.Rules as spec;

use crate::actions::read_triggered;
use crate::kind::RuleKind;
use sb_phrases::{
    Fault, Form, behind_word, read_flag, read_int, read_mark, read_name, read_names, read_positive,
    read_predicate, read_word,
};
use sb_pred::Pred;
use sb_rule::{Action, Event, Mode, Rule, Side};
use sb_tokens::{Placed, Sign};
use sb_value::Names;
use std::alloc::Global;

#[tactic(auto, unfolding(crate::specs::Commands::mode_at), using(sb_phrases::proofs::Loops::passes))]
fn read_mode<'a>(tokens: &'a [Placed]) -> Result<(Mode, &'a [Placed]), Fault<'a>>
    ensures { Gives beside result (commands.mode_at (tokens_of tokens.now)) }
{
    if let Some(rest) = behind_word(b"restrict", tokens) {
        return Ok((Mode::Restrict, rest));
    }
    let rest = read_word(b"cascade", tokens)?;
    Ok((Mode::Cascade, rest))
}

#[tactic(auto, unfolding(crate::specs::Commands::event_at), using(sb_phrases::proofs::Loops::passes))]
fn read_event<'a>(tokens: &'a [Placed]) -> Result<(Event, &'a [Placed]), Fault<'a>>
    ensures { Gives beside result (commands.event_at (tokens_of tokens.now)) }
{
    if let Some(rest) = behind_word(b"insert", tokens) {
        return Ok((Event::Insert, rest));
    }
    if let Some(rest) = behind_word(b"delete", tokens) {
        return Ok((Event::Delete, rest));
    }
    let rest = read_word(b"update", tokens)?;
    Ok((Event::Update, rest))
}

#[tactic(auto, unfolding(crate::specs::Rules::tree_rule_at))]
fn read_tree_rule<'a>(
    alloc: Global,
    tokens: &'a [Placed],
) -> Result<(Rule, &'a [Placed]), Fault<'a>>
    ensures { Gives beside result (spec.tree_rule_at (tokens_of tokens.now)) }
{
    let (columns, rest) = read_names(alloc, tokens)?;
    let (unique, rest) = read_flag(b"unique", rest);
    Ok((Rule::TreeIndex { columns, unique }, rest))
}

#[tactic(auto, unfolding(crate::specs::Rules::hash_rule_at))]
fn read_hash_rule<'a>(
    alloc: Global,
    tokens: &'a [Placed],
) -> Result<(Rule, &'a [Placed]), Fault<'a>>
    ensures { Gives beside result (spec.hash_rule_at (tokens_of tokens.now)) }
{
    let (columns, rest) = read_names(alloc, tokens)?;
    Ok((Rule::HashIndex { columns }, rest))
}

#[tactic(auto, unfolding(crate::specs::Rules::join_rule_at))]
fn read_join_rule<'a>(
    alloc: Global,
    tokens: &'a [Placed],
) -> Result<(Rule, &'a [Placed]), Fault<'a>>
    ensures { Gives beside result (spec.join_rule_at (tokens_of tokens.now)) }
{
    let (columns, rest) = read_names(alloc, tokens)?;
    let rest = read_word(b"with", rest)?;
    let (other, rest) = read_name(rest)?;
    let (others, rest) = read_names(alloc, rest)?;
    let rule = Rule::JoinIndex {
        side: Side::Main,
        columns,
        other,
        others,
    };
    Ok((rule, rest))
}

/// Where the buckets begin, and how wide they are.
#[tactic(auto, unfolding(crate::specs::Rules::buckets_at))]
fn read_buckets<'a>(tokens: &'a [Placed]) -> Result<((i64, i64), &'a [Placed]), Fault<'a>>
    ensures { Gives twice_keyed_beside result (spec.buckets_at (tokens_of tokens.now)) }
{
    let rest = read_word(b"low", tokens)?;
    let (low, rest) = read_int(rest)?;
    let rest = read_word(b"width", rest)?;
    let (width, rest) = read_positive(rest)?;
    Ok(((low, width), rest))
}

#[tactic(auto, unfolding(crate::specs::Rules::stats_rule_at))]
fn read_stats_rule<'a>(tokens: &'a [Placed]) -> Result<(Rule, &'a [Placed]), Fault<'a>>
    ensures { Gives beside result (spec.stats_rule_at (tokens_of tokens.now)) }
{
    let rest = read_mark(Sign::Open, tokens)?;
    let (column, rest) = read_name(rest)?;
    let rest = read_mark(Sign::Close, rest)?;
    let ((low, width), rest) = read_buckets(rest)?;
    Ok((Rule::Stats { column, low, width }, rest))
}

#[tactic(auto, unfolding(crate::specs::Rules::check_rule_at))]
fn read_check_rule<'a>(
    alloc: Global,
    tokens: &'a [Placed],
) -> Result<(Rule, &'a [Placed]), Fault<'a>>
    ensures { Gives beside result (spec.check_rule_at (tokens_of tokens.now)) }
{
    let (pred, rest) = read_predicate(alloc, Form::Bare, tokens)?;
    let (deferred, rest) = read_flag(b"deferred", rest);
    Ok((Rule::Check { pred, deferred }, rest))
}

/// The columns that are referred to, what happens to rows that refer, and whether the check is deferred.
#[tactic(auto, unfolding(crate::specs::Rules::target_at))]
fn read_target<'a>(
    alloc: Global,
    tokens: &'a [Placed],
) -> Result<((Names, (Mode, bool)), &'a [Placed]), Fault<'a>>
    ensures { Gives beside result (spec.target_at (tokens_of tokens.now)) }
{
    let (others, rest) = read_names(alloc, tokens)?;
    let (mode, rest) = read_mode(rest)?;
    let (deferred, rest) = read_flag(b"deferred", rest);
    Ok(((others, (mode, deferred)), rest))
}

#[tactic(auto, unfolding(crate::specs::Rules::refers_rule_at))]
fn read_refers_rule<'a>(
    alloc: Global,
    tokens: &'a [Placed],
) -> Result<(Rule, &'a [Placed]), Fault<'a>>
    ensures { Gives beside result (spec.refers_rule_at (tokens_of tokens.now)) }
{
    let (columns, rest) = read_names(alloc, tokens)?;
    let rest = read_word(b"to", rest)?;
    let (other, rest) = read_name(rest)?;
    let ((others, (mode, deferred)), rest) = read_target(alloc, rest)?;
    let rule = Rule::Refers {
        side: Side::Main,
        columns,
        other,
        others,
        mode,
        deferred,
    };
    Ok((rule, rest))
}

/// What a trigger does, and whether it is deferred.
#[tactic(auto, unfolding(crate::specs::Rules::deed_at))]
fn read_deed<'a>(
    alloc: Global,
    tokens: &'a [Placed],
) -> Result<((Action, bool), &'a [Placed]), Fault<'a>>
    ensures { Gives keyed_beside result (spec.deed_at (tokens_of tokens.now)) }
{
    let rest = read_word(b"do", tokens)?;
    let (action, rest) = read_triggered(alloc, rest)?;
    let (deferred, rest) = read_flag(b"deferred", rest);
    Ok(((action, deferred), rest))
}

/// When a trigger does something, and what.
#[tactic(auto, unfolding(crate::specs::Rules::guarded_at))]
fn read_guarded<'a>(
    alloc: Global,
    tokens: &'a [Placed],
) -> Result<((Pred, (Action, bool)), &'a [Placed]), Fault<'a>>
    ensures { Gives twice_keyed_beside result (spec.guarded_at (tokens_of tokens.now)) }
{
    let rest = read_word(b"when", tokens)?;
    let (pred, rest) = read_predicate(alloc, Form::Full, rest)?;
    let (deed, rest) = read_deed(alloc, rest)?;
    Ok(((pred, deed), rest))
}

#[tactic(auto, unfolding(crate::specs::Rules::trigger_rule_at))]
fn read_trigger_rule<'a>(
    alloc: Global,
    tokens: &'a [Placed],
) -> Result<(Rule, &'a [Placed]), Fault<'a>>
    ensures { Gives beside result (spec.trigger_rule_at (tokens_of tokens.now)) }
{
    let rest = read_word(b"after", tokens)?;
    let (event, rest) = read_event(rest)?;
    let ((pred, (action, deferred)), rest) = read_guarded(alloc, rest)?;
    let rule = Rule::Trigger {
        event,
        pred,
        action,
        deferred,
    };
    Ok((rule, rest))
}

/// The rule of an attachment of this kind.
#[tactic(auto, unfolding(crate::specs::Rules::rule_of))]
pub fn read_rule_of<'a>(
    kind: RuleKind,
    alloc: Global,
    tokens: &'a [Placed],
) -> Result<(Rule, &'a [Placed]), Fault<'a>>
    ensures { Gives beside result (spec.rule_of kind (tokens_of tokens.now)) }
{
    match kind {
        RuleKind::TreeIndex => read_tree_rule(alloc, tokens),
        RuleKind::HashIndex => read_hash_rule(alloc, tokens),
        RuleKind::JoinIndex => read_join_rule(alloc, tokens),
        RuleKind::Stats => read_stats_rule(tokens),
        RuleKind::Check => read_check_rule(alloc, tokens),
        RuleKind::Refers => read_refers_rule(alloc, tokens),
        RuleKind::Trigger => read_trigger_rule(alloc, tokens),
    }
}
