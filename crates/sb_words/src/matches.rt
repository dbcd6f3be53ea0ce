//! What `clap` makes of the words.

ghost use Rattle.std.specs.Prelude.{◌≡◌, IfOk, MatchOption, map};
ghost use Rattle.clap.specs.Words.{found_of, rows_of};
ghost use Rattle.sb_words.specs.Matched.{IsMatchedBy};
ghost use Rattle.sb_words.specs.Words.{IsRefused};

use crate::command::starburst;
use clap::ArgMatches;
use clap::error::ErrorKind;
use sb_value::Str;
use std::alloc::{AllocError, Global};

/// The words as `clap` takes them.
pub(crate) fn texts_of<'a>(alloc: Global, words: &'a [Str]) -> Result<Vec<&'a str>, AllocError>
    ensures { IfOk result (λ t. map (λ s. s.now) t.items ≡ words.entry.now) }
{
    let mut texts = Vec::with_capacity(alloc, words.len())?;
    for word in words {
        texts.push(word.as_str())?;
    }
    Ok(texts)
}

/// The matches of the words, where `clap` takes them.
pub(crate) fn matches_of<'a>(
    alloc: Global,
    words: &'a [&'a str],
) -> Result<Option<ArgMatches<'a>>, AllocError>
    ensures { IfOk result (λ r. MatchOption r (IsRefused (map (λ s. s.now) words.entry.now))
        (λ m. IsMatchedBy (map (λ s. s.now) words.entry.now) (rows_of (found_of m)))) }
{
    match starburst(alloc)?.try_get_matches_from(words) {
        Ok(matches) => Ok(Some(matches)),
        Err(error) => match error.kind() {
            ErrorKind::OutOfMemory => Err(AllocError),
            _ => Ok(None),
        },
    }
}
