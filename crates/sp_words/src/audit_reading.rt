// The parse of the auditor's words by clap.
ghost use Rattle.std.specs.Prelude.{◌≡◌, false, map, codes, IfOk, IsErrOf};
ghost use Rattle.std.specs.String.{string_bytes};
ghost use Rattle.clap.specs.Walk.{rule_of};
ghost use Rattle.clap.specs.Simple.{app_of, new_app};
ghost use Rattle.clap.specs.Matches.{first_value, found_of};
ghost use Rattle.sp_words.specs.AuditLines.{IsAuditLine};
ghost use Rattle.sp_words.specs.AuditParse.{AuditTexts, GivesAudit, audit_app, audit_texts_by, file_rule, files_app, with_file};
ghost use Rattle.sp_words.specs.AuditViews.{audit_texts_in};
ghost use Rattle.sp_words.specs.Parse.{bare};
ghost use Rattle.sp_words.specs.declared.audit_line.AuditLine.{AuditLine};

use crate::audit_given::AuditGiven;
use crate::audit_values::audit_line_of;
use crate::reading::{add, command_word, refused};
use crate::{AuditLine, WordsRefused};
use clap::{Arg, ArgAction, ArgMatches, Command};
use std::alloc::{AllocError, Global};

/// The auditor's command line of these words: a command, its files in their order, and its options, each once, as `--name VALUE` or `--name=VALUE`.
/// `Usage` exactly where they are none.
pub fn parse_audit<'a>(alloc: Global, words: &'a [String]) -> Result<AuditLine<'a>, WordsRefused>
    ensures line { IfOk result (IsAuditLine (map string_bytes words.now)) }
    ensures usage { IsErrOf result WordsRefused.Usage → (line : AuditLine) → IsAuditLine (map string_bytes words.now) line → ⊥ }
{
    let given = given(alloc, words)?;
    match audit_line_of(alloc, &given) {
        Ok(line) => line.ok_or(WordsRefused::Usage),
        Err(_) => Err(WordsRefused::Memory),
    }
}

/// What these words give to the command, to the files and to each option.
fn given<'a>(alloc: Global, words: &'a [String]) -> Result<AuditGiven<'a>, WordsRefused>
    ensures given { IfOk result (λ g. GivesAudit (map string_bytes words.now) (audit_texts_in g)) }
    ensures usage { IsErrOf result WordsRefused.Usage → (g : AuditTexts) → GivesAudit (map string_bytes words.now) g → ⊥ }
{
    let Ok(command) = command(alloc) else {
        return Err(WordsRefused::Memory);
    };
    match command.try_get_matches_from(words) {
        Ok(matches) => Ok(given_in(&matches)),
        Err(e) => Err(refused(&e)),
    }
}

/// What the matches give to the command, to the files and to each option.
fn given_in<'a>(matches: &ArgMatches<'a>) -> AuditGiven<'a>
    ensures { audit_texts_in result ≡ audit_texts_by (first_value (found_of matches.now)) }
{
    AuditGiven {
        command: matches.get_str("command"),
        first: matches.get_str("first"),
        second: matches.get_str("second"),
        path: matches.get_str("path"),
        from: matches.get_str("from"),
    }
}

/// What clap reads: the command, two files and two options.
fn command<'a>(alloc: Global) -> Result<Command<'a>, AllocError>
    ensures { IfOk result (λ c. app_of c ≡ audit_app) }
{
    let command = files(alloc)?;
    let command = add(alloc, command, "path")?;
    add(alloc, command, "from")
}

/// The command and two files.
fn files<'a>(alloc: Global) -> Result<Command<'a>, AllocError>
    ensures { IfOk result (λ c. app_of c ≡ files_app) }
{
    let command = base(alloc).arg(command_word(alloc))?;
    let command = add_file(alloc, command, "first")?;
    add_file(alloc, command, "second")
}

/// A command line without words, help or version.
fn base<'a>(alloc: Global) -> Command<'a>
    ensures { app_of result ≡ bare (new_app (codes "spinesd-audit")) }
{
    Command::new(alloc, "spinesd-audit")
        .no_binary_name(true)
        .disable_help_flag(true)
        .disable_version_flag(true)
}

/// Adds a file, which the words name in its place.
fn add_file<'a>(
    alloc: Global,
    command: Command<'a>,
    name: &'a str,
) -> Result<Command<'a>, AllocError>
    ensures { IfOk result (λ c. app_of c ≡ with_file (app_of command.entry) name.entry.now) }
{
    command.arg(file(alloc, name))
}

/// A file, which may be left out.
fn file<'a>(alloc: Global, name: &'a str) -> Arg<'a>
    ensures rule { rule_of result ≡ file_rule name.entry.now }
    ensures plain { result.global ≡ false }
{
    Arg::new(alloc, name).action(ArgAction::Set)
}
