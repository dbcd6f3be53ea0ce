//! All commands, by their first words.

ghost use Rattle.std.specs.Prelude.{◌≡◌};
ghost use Rattle.sb_tokens.specs.Rows.{tokens_of};
ghost use Rattle.sb_phrases.specs.Gives.{Gives, beside};
ghost use Rattle.sb_reader.specs.Commands as spec;
ghost use Rattle.sb_reader.specs.Verbs as verbs;

use crate::attachments::read_attachment;
use crate::control::{read_checkpoint, read_register, read_retire, read_rollback, read_savepoint};
use crate::definitions::{read_create, read_detach, read_drop, read_show, read_tables};
use crate::indexes::{read_entries, read_lookup, read_range};
use crate::rows::{read_add, read_delete, read_get, read_insert, read_scan, read_set, read_update};
use crate::verb::Verb;
use sb_phrases::{Fault, behind_word, is_word_next, read_word};
use sb_plain::Command;
use sb_tokens::Placed;
use std::alloc::Global;

/// The first word of a command.
fn word_of(verb: Verb) -> &'static [u8]
    ensures { result.now ≡ verbs.word_of verb }
{
    match verb {
        Verb::Insert => b"insert",
        Verb::Delete => b"delete",
        Verb::Update => b"update",
        Verb::Get => b"get",
        Verb::Scan => b"scan",
        Verb::Lookup => b"lookup",
        Verb::Range => b"range",
        Verb::Entries => b"entries",
        Verb::Create => b"create",
        Verb::Drop => b"drop",
        Verb::Attach => b"attach",
        Verb::Detach => b"detach",
        Verb::Show => b"show",
        Verb::Savepoint => b"savepoint",
        Verb::Rollback => b"rollback",
        Verb::Register => b"register",
        Verb::Retire => b"retire",
    }
}

/// What stands behind the word.
#[tactic(auto, unfolding(crate::specs::Verbs::behind_of))]
fn read_behind<'a>(
    verb: Verb,
    alloc: Global,
    tokens: &'a [Placed],
) -> Result<(Command, &'a [Placed]), Fault<'a>>
    ensures { Gives beside result (verbs.behind_of verb (tokens_of tokens.now)) }
{
    match verb {
        Verb::Insert => read_insert(alloc, tokens),
        Verb::Delete => read_delete(alloc, tokens),
        Verb::Update => read_update(alloc, tokens),
        Verb::Get => read_get(tokens),
        Verb::Scan => read_scan(tokens),
        Verb::Lookup => read_lookup(alloc, tokens),
        Verb::Range => read_range(alloc, tokens),
        Verb::Entries => read_entries(tokens),
        Verb::Create => read_create(alloc, tokens),
        Verb::Drop => read_drop(tokens),
        Verb::Attach => read_attachment(alloc, tokens),
        Verb::Detach => read_detach(tokens),
        Verb::Show => read_show(tokens),
        Verb::Savepoint => read_savepoint(tokens),
        Verb::Rollback => read_rollback(tokens),
        Verb::Register => read_register(tokens),
        Verb::Retire => read_retire(tokens),
    }
}

#[tactic(auto, unfolding(crate::specs::Verbs::keyed_at))]
fn read_keyed<'a>(
    verb: Verb,
    alloc: Global,
    tokens: &'a [Placed],
) -> Result<(Command, &'a [Placed]), Fault<'a>>
    ensures { Gives beside result (verbs.keyed_at verb (tokens_of tokens.now)) }
{
    let rest = read_word(word_of(verb), tokens)?;
    read_behind(verb, alloc, rest)
}

/// A command of this verb.
fn read_of<'a>(
    verb: Verb,
    alloc: Global,
    tokens: &'a [Placed],
) -> Result<(Command, &'a [Placed]), Fault<'a>>
    ensures { Gives beside result (verbs.command_of verb (tokens_of tokens.now)) }
{
    read_keyed(verb, alloc, tokens)
}

/// A command on transactions or extensions.
#[tactic(auto, unfolding(crate::specs::Commands::control_at, crate::specs::Commands::begin_at, crate::specs::Commands::commit_at, crate::specs::Commands::abort_at), using(sb_phrases::proofs::Loops::passes))]
fn read_control<'a>(
    alloc: Global,
    tokens: &'a [Placed],
) -> Result<(Command, &'a [Placed]), Fault<'a>>
    ensures { Gives beside result (spec.control_at (tokens_of tokens.now)) }
{
    if let Some(rest) = behind_word(b"begin", tokens) {
        return Ok((Command::Begin, rest));
    }
    if let Some(rest) = behind_word(b"commit", tokens) {
        return Ok((Command::Commit, rest));
    }
    if let Some(rest) = behind_word(b"abort", tokens) {
        return Ok((Command::Abort, rest));
    }
    if is_word_next(b"savepoint", tokens) {
        return read_of(Verb::Savepoint, alloc, tokens);
    }
    if is_word_next(b"rollback", tokens) {
        return read_of(Verb::Rollback, alloc, tokens);
    }
    if is_word_next(b"register", tokens) {
        return read_of(Verb::Register, alloc, tokens);
    }
    if is_word_next(b"retire", tokens) {
        return read_of(Verb::Retire, alloc, tokens);
    }
    read_checkpoint(tokens)
}

/// A command on relations and attachments, or on transactions and extensions.
#[tactic(auto, unfolding(crate::specs::Commands::definition_at))]
fn read_definition<'a>(
    alloc: Global,
    tokens: &'a [Placed],
) -> Result<(Command, &'a [Placed]), Fault<'a>>
    ensures { Gives beside result (spec.definition_at (tokens_of tokens.now)) }
{
    if is_word_next(b"create", tokens) {
        return read_of(Verb::Create, alloc, tokens);
    }
    if is_word_next(b"drop", tokens) {
        return read_of(Verb::Drop, alloc, tokens);
    }
    if is_word_next(b"attach", tokens) {
        return read_of(Verb::Attach, alloc, tokens);
    }
    if is_word_next(b"detach", tokens) {
        return read_of(Verb::Detach, alloc, tokens);
    }
    if is_word_next(b"show", tokens) {
        return read_of(Verb::Show, alloc, tokens);
    }
    if is_word_next(b"tables", tokens) {
        return read_tables(tokens);
    }
    read_control(alloc, tokens)
}

/// A command on indexes, on relations and attachments, or on transactions and extensions.
#[tactic(auto, unfolding(crate::specs::Commands::index_at))]
fn read_index<'a>(alloc: Global, tokens: &'a [Placed]) -> Result<(Command, &'a [Placed]), Fault<'a>>
    ensures { Gives beside result (spec.index_at (tokens_of tokens.now)) }
{
    if is_word_next(b"lookup", tokens) {
        return read_of(Verb::Lookup, alloc, tokens);
    }
    if is_word_next(b"range", tokens) {
        return read_of(Verb::Range, alloc, tokens);
    }
    if is_word_next(b"entries", tokens) {
        return read_of(Verb::Entries, alloc, tokens);
    }
    read_definition(alloc, tokens)
}

/// The command at the front of the tokens.
#[tactic(auto, unfolding(crate::specs::Commands::command_at))]
pub fn read_front<'a>(
    alloc: Global,
    tokens: &'a [Placed],
) -> Result<(Command, &'a [Placed]), Fault<'a>>
    ensures { Gives beside result (spec.command_at (tokens_of tokens.now)) }
{
    if is_word_next(b"insert", tokens) {
        return read_of(Verb::Insert, alloc, tokens);
    }
    if is_word_next(b"delete", tokens) {
        return read_of(Verb::Delete, alloc, tokens);
    }
    if is_word_next(b"update", tokens) {
        return read_of(Verb::Update, alloc, tokens);
    }
    if is_word_next(b"set", tokens) {
        return read_set(alloc, tokens);
    }
    if is_word_next(b"add", tokens) {
        return read_add(alloc, tokens);
    }
    if is_word_next(b"get", tokens) {
        return read_of(Verb::Get, alloc, tokens);
    }
    if is_word_next(b"scan", tokens) {
        return read_of(Verb::Scan, alloc, tokens);
    }
    read_index(alloc, tokens)
}
