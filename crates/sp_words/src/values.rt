// The command line of the texts that a parse gave.
ghost use Rattle.std.specs.Prelude.{◌≡◌, ◌↔◌, ◌≤◌, Some, IsTrue, codes};
ghost use Rattle.std.specs.Fmt.{decimal};
ghost use Rattle.sp_base.specs.Finds.{Finds};
ghost use Rattle.sp_recording.specs.declared.line.TheConstants.{MAX_TURNS};
ghost use Rattle.sp_words.specs.CommandLines.{AreTextsOf, IsAsk, IsPathsQuery, IsSeed, IsTurns, alone, ask_texts, daemon_texts, generate_texts, paths_texts};
ghost use Rattle.sp_words.specs.Views.{text, texts_in};

use crate::given::Given;
use crate::{Ask, CommandLine, PathsQuery};
use sp_paths::MAX_PATHS;
use sp_recording::MAX_TURNS;
use sp_text::{node_in, number_in};

/// The command line of what was given. None exactly where it is of none.
pub fn command_line_of<'a>(given: &Given<'a>) -> Option<CommandLine<'a>>
    ensures { Finds (AreTextsOf (texts_in given.now)) result }
{
    if is_alone(given, "replay") {
        return Some(CommandLine::Replay);
    }
    if is_alone(given, "topology") {
        return Some(CommandLine::Topology);
    }
    if is_alone(given, "format") {
        return Some(CommandLine::Format);
    }
    if is_alone(given, "verify") {
        return Some(CommandLine::Verify);
    }
    if let Some(seed) = generate(given) {
        return Some(CommandLine::Generate { seed });
    }
    if let Some(turns) = daemon(given) {
        return Some(CommandLine::Daemon { turns });
    }
    if let Some(query) = paths(given) {
        return Some(CommandLine::Paths(query));
    }
    ask(given).map(CommandLine::Ask)
}

/// The seed of `generate --seed N`.
fn generate(given: &Given<'_>) -> Option<u32>
    ensures { Finds (λ n. IsSeed n × (texts_in given.now ≡ generate_texts (decimal n))) result }
{
    let word = given.seed?;
    let rest = Given {
        seed: None,
        ..*given
    };
    if !is_alone(&rest, "generate") {
        return None;
    }
    let seed = number_in(word.as_bytes(), 1, u64::from(u32::MAX))?;
    Some(seed as u32)
}

/// The turns of `daemon --turns N`.
fn daemon(given: &Given<'_>) -> Option<u32>
    ensures { Finds (λ n. IsTurns n × (texts_in given.now ≡ daemon_texts (decimal n))) result }
{
    let word = given.turns?;
    let rest = Given {
        turns: None,
        ..*given
    };
    if !is_alone(&rest, "daemon") {
        return None;
    }
    turns_of(word)
}

/// A number of turns.
fn turns_of(word: &str) -> Option<u32>
    ensures { Finds (λ n. IsTurns n × (word.now ≡ decimal n)) result }
{
    let turns = number_in(word.as_bytes(), 1, u64::from(MAX_TURNS))?;
    Some(turns as u32)
}

/// A port.
fn port_of(word: &str) -> Option<u16>
    ensures { Finds (λ n. (1 ≤ n) × (n ≤ 65535) × (word.now ≡ decimal n)) result }
{
    let port = number_in(word.as_bytes(), 1, u64::from(u16::MAX))?;
    Some(port as u16)
}

/// The query of `paths --from S --to D --paths K`.
fn paths(given: &Given<'_>) -> Option<PathsQuery>
    ensures { Finds (λ query. IsPathsQuery query × (texts_in given.now ≡ paths_texts query)) result }
{
    let from = given.from?;
    let to = given.to?;
    let count = given.paths?;
    let rest = Given {
        from: None,
        to: None,
        paths: None,
        ..*given
    };
    if !is_alone(&rest, "paths") {
        return None;
    }
    let from = node_in(from.as_bytes(), 0, u8::MAX)?;
    let to = node_in(to.as_bytes(), 0, u8::MAX)?;
    let paths = number_in(count.as_bytes(), 1, u64::from(MAX_PATHS))? as u8;
    if from == to {
        return None;
    }
    Some(PathsQuery { from, to, paths })
}

/// What `ask --port P --local L --turns N --request LINE` asks.
fn ask<'a>(given: &Given<'a>) -> Option<Ask<'a>>
    ensures { Finds (λ ask. IsAsk ask × (texts_in given.now ≡ ask_texts ask)) result }
{
    let port = given.port?;
    let local = given.local?;
    let turns = given.turns?;
    let request = given.request?;
    let rest = Given {
        port: None,
        local: None,
        turns: None,
        request: None,
        ..*given
    };
    if !is_alone(&rest, "ask") {
        return None;
    }
    Some(Ask {
        port: port_of(port)?,
        local: port_of(local)?,
        turns: turns_of(turns)?,
        request,
    })
}

/// Whether this command was given, and no option.
fn is_alone(given: &Given<'_>, name: &str) -> bool
    ensures { IsTrue result ↔ (texts_in given.now ≡ alone name.now) }
{
    is_text(given.command, name)
        && given.from.is_none()
        && given.to.is_none()
        && given.paths.is_none()
        && given.seed.is_none()
        && given.turns.is_none()
        && given.port.is_none()
        && given.local.is_none()
        && given.request.is_none()
}

/// Whether this text was given.
pub(crate) fn is_text(given: Option<&str>, name: &str) -> bool
    ensures { IsTrue result ↔ (text given.entry ≡ Some name.now) }
{
    match given {
        Some(given) => given == name,
        None => false,
    }
}
