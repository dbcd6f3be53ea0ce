//! Readers of attachments, each as the command that attaches it.

ghost use Rattle.std.specs.Prelude.{◌≡◌};
ghost use Rattle.sb_tokens.specs.Rows.{tokens_of};
ghost use Rattle.sb_phrases.specs.Gives.{Gives, beside};
ghost use Rattle.sb_reader.specs.Commands as spec;
ghost use Rattle.sb_reader.specs.Rules.{word_of as keyword, attached_at, attachment_of};

use crate::kind::RuleKind;
use crate::rules::read_rule_of;
use sb_phrases::{Fault, is_word_next, read_foreign_code, read_key, read_place, read_word};
use sb_plain::Command;
use sb_rule::Rule;
use sb_tokens::Placed;
use sb_value::Bytes;
use std::alloc::Global;

/// The first word of an attachment.
fn word_of(kind: RuleKind) -> &'static [u8]
    ensures { result.now ≡ keyword kind }
{
    match kind {
        RuleKind::TreeIndex => b"treeindex",
        RuleKind::HashIndex => b"hashindex",
        RuleKind::JoinIndex => b"joinindex",
        RuleKind::Stats => b"stats",
        RuleKind::Check => b"check",
        RuleKind::Refers => b"refers",
        RuleKind::Trigger => b"trigger",
    }
}

#[tactic(auto, unfolding(crate::specs::Rules::attached_at))]
fn read_attached<'a>(
    kind: RuleKind,
    alloc: Global,
    tokens: &'a [Placed],
) -> Result<(Command, &'a [Placed]), Fault<'a>>
    ensures { Gives beside result (attached_at kind (tokens_of tokens.now)) }
{
    let rest = read_word(word_of(kind), tokens)?;
    let (name, relation, rest) = read_place(rest)?;
    let (rule, rest) = read_rule_of(kind, alloc, rest)?;
    let command = Command::Attach {
        relation,
        name,
        rule,
    };
    Ok((command, rest))
}

/// An attachment of this kind.
fn read_attachment_of<'a>(
    kind: RuleKind,
    alloc: Global,
    tokens: &'a [Placed],
) -> Result<(Command, &'a [Placed]), Fault<'a>>
    ensures { Gives beside result (attachment_of kind (tokens_of tokens.now)) }
{
    read_attached(kind, alloc, tokens)
}

#[tactic(auto, unfolding(crate::specs::Commands::foreign_at))]
fn read_foreign<'a>(tokens: &'a [Placed]) -> Result<(Command, &'a [Placed]), Fault<'a>>
    ensures { Gives beside result (spec.foreign_at (tokens_of tokens.now)) }
{
    let rest = read_word(b"code", tokens)?;
    let (code, rest) = read_foreign_code(rest)?;
    let (name, relation, rest) = read_place(rest)?;
    let rest = read_word(b"desc", rest)?;
    let (key, rest) = read_key(rest)?;
    let desc = Bytes::from_vec(key.into_vec());
    let rule = Rule::Foreign { code, desc };
    let command = Command::Attach {
        relation,
        name,
        rule,
    };
    Ok((command, rest))
}

#[tactic(auto, unfolding(crate::specs::Commands::rule_at))]
fn read_rule<'a>(alloc: Global, tokens: &'a [Placed]) -> Result<(Command, &'a [Placed]), Fault<'a>>
    ensures { Gives beside result (spec.rule_at (tokens_of tokens.now)) }
{
    if is_word_next(b"check", tokens) {
        return read_attachment_of(RuleKind::Check, alloc, tokens);
    }
    if is_word_next(b"refers", tokens) {
        return read_attachment_of(RuleKind::Refers, alloc, tokens);
    }
    if is_word_next(b"trigger", tokens) {
        return read_attachment_of(RuleKind::Trigger, alloc, tokens);
    }
    if is_word_next(b"code", tokens) {
        return read_foreign(tokens);
    }
    read_attachment_of(RuleKind::Stats, alloc, tokens)
}

/// An attachment, as the command that attaches it.
#[tactic(auto, unfolding(crate::specs::Commands::attachment_at))]
pub fn read_attachment<'a>(
    alloc: Global,
    tokens: &'a [Placed],
) -> Result<(Command, &'a [Placed]), Fault<'a>>
    ensures { Gives beside result (spec.attachment_at (tokens_of tokens.now)) }
{
    if is_word_next(b"treeindex", tokens) {
        return read_attachment_of(RuleKind::TreeIndex, alloc, tokens);
    }
    if is_word_next(b"hashindex", tokens) {
        return read_attachment_of(RuleKind::HashIndex, alloc, tokens);
    }
    if is_word_next(b"joinindex", tokens) {
        return read_attachment_of(RuleKind::JoinIndex, alloc, tokens);
    }
    read_rule(alloc, tokens)
}
