//! The command line as a command of `clap`.

ghost use Rattle.std.specs.Prelude.{◌≡◌, IfOk, false};
ghost use Rattle.clap.specs.Words.{app_of, rule_of};
ghost use Rattle.sb_words.specs.Words.{create_rule, number_rule, starburst, store_rule};

use clap::builder::ValueParser;
use clap::{Arg, ArgAction, Command};
use std::alloc::{AllocError, Global};

/// The name of the store's file.
fn store<'a>(alloc: Global) -> Arg<'a>
    ensures rule { rule_of result ≡ store_rule }
    ensures local { result.global ≡ false }
{
    Arg::new(alloc, "store")
        .long("store")
        .action(ArgAction::Set)
        .required(true)
}

/// Whether the store is made anew.
fn create<'a>(alloc: Global) -> Arg<'a>
    ensures rule { rule_of result ≡ create_rule }
    ensures local { result.global ≡ false }
{
    Arg::new(alloc, "create")
        .long("create")
        .action(ArgAction::SetTrue)
}

/// A number from the least to the most, or the default.
fn number<'a>(alloc: Global, name: &'a str, least: u64, most: u64, default: &'a str) -> Arg<'a>
    ensures rule { rule_of result ≡ number_rule name.entry.now least most default.entry.now }
    ensures local { result.global ≡ false }
{
    Arg::new(alloc, name)
        .long(name)
        .action(ArgAction::Set)
        .value_parser(ValueParser::unsigned(least, most))
        .default_value(default)
}

/// The program's command line.
pub(crate) fn starburst<'a>(alloc: Global) -> Result<Command<'a>, AllocError>
    ensures { IfOk result (λ c. app_of c ≡ starburst) }
{
    Command::new(alloc, "starburst")
        .no_binary_name(true)
        .disable_help_flag(true)
        .arg(store(alloc))?
        .arg(create(alloc))?
        .arg(number(alloc, "pages", 64, 65_536, "1024"))?
        .arg(number(alloc, "log", 2_097_152, 16_777_216, "4194304"))?
        .arg(number(alloc, "frames", 8, 65_536, "64"))
}
