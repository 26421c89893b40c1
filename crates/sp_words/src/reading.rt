// The parse of words by clap.
ghost use Rattle.std.specs.Prelude.{◌≡◌, ◌≢◌, ◌↔◌, false, map, codes, IfOk, IsErrOf, IsTrue};
ghost use Rattle.std.specs.String.{string_bytes};
ghost use Rattle.clap.specs.Values.{kind_of};
ghost use Rattle.clap.specs.Walk.{rule_of};
ghost use Rattle.clap.specs.Simple.{app_of, new_app};
ghost use Rattle.clap.specs.Matches.{first_value, found_of};
ghost use Rattle.sp_words.specs.CommandLines.{IsCommandLine};
ghost use Rattle.sp_words.specs.declared.command_line.CommandLine.{CommandLine};
ghost use Rattle.sp_words.specs.Parse.{Gives, Texts, app, bare, command_rule, option_rule, routes_app, texts_by, with_option};
ghost use Rattle.sp_words.specs.Views.{texts_in};

use crate::given::Given;
use crate::values::command_line_of;
use crate::{CommandLine, WordsRefused};
use clap::error::ErrorKind;
use clap::{Arg, ArgAction, ArgMatches, Command, Error};
use std::alloc::{AllocError, Global};

/// The command line of these words: a command and its options, each once and in any order, as `--name VALUE` or `--name=VALUE`.
/// `Usage` exactly where they are none.
pub fn parse<'a>(alloc: Global, words: &'a [String]) -> Result<CommandLine<'a>, WordsRefused>
    ensures line { IfOk result (IsCommandLine (map string_bytes words.now)) }
    ensures usage { IsErrOf result WordsRefused.Usage → (line : CommandLine) → IsCommandLine (map string_bytes words.now) line → ⊥ }
{
    let given = given(alloc, words)?;
    command_line_of(&given).ok_or(WordsRefused::Usage)
}

/// What these words give to the command and to each option.
fn given<'a>(alloc: Global, words: &'a [String]) -> Result<Given<'a>, WordsRefused>
    ensures given { IfOk result (λ g. Gives (map string_bytes words.now) (texts_in g)) }
    ensures usage { IsErrOf result WordsRefused.Usage → (g : Texts) → Gives (map string_bytes words.now) g → ⊥ }
{
    let Ok(command) = command(alloc) else {
        return Err(WordsRefused::Memory);
    };
    match command.try_get_matches_from(words) {
        Ok(matches) => Ok(given_in(&matches)),
        Err(e) => Err(refused(&e)),
    }
}

/// What the matches give to the command and to each option.
fn given_in<'a>(matches: &ArgMatches<'a>) -> Given<'a>
    ensures { texts_in result ≡ texts_by (first_value (found_of matches.now)) }
{
    Given {
        command: matches.get_str("command"),
        from: matches.get_str("from"),
        to: matches.get_str("to"),
        paths: matches.get_str("paths"),
        seed: matches.get_str("seed"),
        turns: matches.get_str("turns"),
        port: matches.get_str("port"),
        local: matches.get_str("local"),
        request: matches.get_str("request"),
    }
}

/// Why words are no command line, by clap's error.
pub(crate) fn refused(error: &Error) -> WordsRefused
    ensures { (result ≡ WordsRefused.Usage) → kind_of error.now ≢ ErrorKind.OutOfMemory }
{
    if is_memory(error) {
        WordsRefused::Memory
    } else {
        WordsRefused::Usage
    }
}

fn is_memory(error: &Error) -> bool
    ensures { IsTrue result ↔ (kind_of error.now ≡ ErrorKind.OutOfMemory) }
{
    error.kind() == ErrorKind::OutOfMemory
}

/// What clap reads: the command and all options.
fn command<'a>(alloc: Global) -> Result<Command<'a>, AllocError>
    ensures { IfOk result (λ c. app_of c ≡ app) }
{
    let command = routes(alloc)?;
    let command = add(alloc, command, "turns")?;
    let command = add(alloc, command, "port")?;
    let command = add(alloc, command, "local")?;
    add(alloc, command, "request")
}

/// The command, and the options of `paths` and `generate`.
fn routes<'a>(alloc: Global) -> Result<Command<'a>, AllocError>
    ensures { IfOk result (λ c. app_of c ≡ routes_app) }
{
    let command = base(alloc).arg(command_word(alloc))?;
    let command = add(alloc, command, "from")?;
    let command = add(alloc, command, "to")?;
    let command = add(alloc, command, "paths")?;
    add(alloc, command, "seed")
}

/// A command line without words, help or version.
fn base<'a>(alloc: Global) -> Command<'a>
    ensures { app_of result ≡ bare (new_app (codes "spinesd")) }
{
    Command::new(alloc, "spinesd")
        .no_binary_name(true)
        .disable_help_flag(true)
        .disable_version_flag(true)
}

/// The word of the command.
pub(crate) fn command_word<'a>(alloc: Global) -> Arg<'a>
    ensures rule { rule_of result ≡ command_rule }
    ensures plain { result.global ≡ false }
{
    Arg::new(alloc, "command")
        .required(true)
        .action(ArgAction::Set)
}

/// Adds an option.
pub(crate) fn add<'a>(
    alloc: Global,
    command: Command<'a>,
    name: &'a str,
) -> Result<Command<'a>, AllocError>
    ensures { IfOk result (λ c. app_of c ≡ with_option (app_of command.entry) name.entry.now) }
{
    command.arg(option(alloc, name))
}

/// An option that takes one value.
fn option<'a>(alloc: Global, name: &'a str) -> Arg<'a>
    ensures rule { rule_of result ≡ option_rule name.entry.now }
    ensures plain { result.global ≡ false }
{
    Arg::new(alloc, name).long(name).action(ArgAction::Set)
}
