//! What the words ask for.

ghost use Rattle.std.specs.Prelude.{◌≡◌, IfOk};
ghost use Rattle.clap.specs.Words.{found_of, rows_of};
ghost use Rattle.sb_words.specs.Matched.{IsComplete};
ghost use Rattle.sb_words.specs.Words.{Asks, IsRead};

use crate::matches::{matches_of, texts_of};
use clap::ArgMatches;
use sb_value::Str;
use std::alloc::{AllocError, Global};

/// What the words ask for.
#[derive(Drop)]
pub struct Words {
    /// The name of the store's file.
    pub store: Str,
    /// Whether the store is made.
    pub create: bool,
    /// How many pages a store that is made has.
    pub pages: u32,
    /// How many bytes the log of a store that is made has.
    pub log: u64,
    /// How many pages are held in memory at most.
    pub frames: u32,
}

/// What the matches ask for.
fn words_of(alloc: Global, matches: &ArgMatches) -> Result<Words, AllocError>
    requires { IsComplete (rows_of (found_of matches.now)) }

    ensures { IfOk result (λ w. Asks (rows_of (found_of matches.now)) w) }
{
    let store = matches.get_str("store").unwrap();
    Ok(Words {
        store: Str::from_string(String::from_str(alloc, store)?),
        create: matches.get_one::<bool>("create").unwrap_or(false),
        pages: matches.get_one::<u32>("pages").unwrap(),
        log: matches.get_one::<u64>("log").unwrap(),
        frames: matches.get_one::<u32>("frames").unwrap(),
    })
}

/// Reads the words of the command line, without the program's name. None where `clap` refuses them.
pub fn read_words(alloc: Global, words: &[Str]) -> Result<Option<Words>, AllocError>
    ensures { IsRead words.now result }
{
    let texts = texts_of(alloc, words)?;
    match matches_of(alloc, texts.as_slice())? {
        Some(matches) => Ok(Some(words_of(alloc, &matches)?)),
        None => Ok(None),
    }
}
