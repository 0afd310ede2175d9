//! Commands as `clap` is told of them.
ghost use Rattle.std.specs.Prelude.{◌≡◌, map, IfOk, false};
ghost use Rattle.clap.specs.Words.{app_of, rule_of, with_rule};
ghost use Rattle.command_words.specs.Commands.{app_of_words, bare_app, with_options, with_words, option_rule, word_rule};

use clap::{Arg, ArgAction, Command};
use std::alloc::{AllocError, Global};

/// A command of these options, each of which takes a value, and of these positional words. It has no `--help`.
pub(crate) fn command_of<'a>(
    alloc: Global,
    name: &'a str,
    options: &[&'a str],
    words: &[&'a str],
) -> Result<Command<'a>, AllocError>
    ensures { IfOk result (λ c. app_of c ≡ app_of_words name.now (map (λ s. s.now) options.now) (map (λ s. s.now) words.now)) }
{
    let bare = Command::new(alloc, name).disable_help_flag(true);
    let chosen = add_options(alloc, bare, options)?;
    add_words(alloc, chosen, words)
}

fn add_options<'a>(
    alloc: Global,
    mut command: Command<'a>,
    names: &[&'a str],
) -> Result<Command<'a>, AllocError>
    ensures { IfOk result (λ c. app_of c ≡ with_options (app_of command.entry) (map (λ s. s.now) names.now)) }
{
    for &name in names {
        command = command.arg(option(alloc, name))?;
    }
    Ok(command)
}

fn add_words<'a>(
    alloc: Global,
    mut command: Command<'a>,
    names: &[&'a str],
) -> Result<Command<'a>, AllocError>
    ensures { IfOk result (λ c. app_of c ≡ with_words (app_of command.entry) (map (λ s. s.now) names.now)) }
{
    for &name in names {
        command = command.arg(word(alloc, name))?;
    }
    Ok(command)
}

fn option<'a>(alloc: Global, name: &'a str) -> Arg<'a>
    ensures rule { rule_of result ≡ option_rule name.now }
    ensures here { result.global ≡ false }
{
    Arg::new(alloc, name).long(name).action(ArgAction::Set)
}

fn word<'a>(alloc: Global, name: &'a str) -> Arg<'a>
    ensures rule { rule_of result ≡ word_rule name.now }
    ensures here { result.global ≡ false }
{
    Arg::new(alloc, name).action(ArgAction::Set)
}
