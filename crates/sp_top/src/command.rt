// The command that the words of a command line say.
ghost use Rattle.std.specs.Prelude.{◌≡◌, IfOk, IfSome, List, map, ℕ};
ghost use Rattle.std.specs.String.{string_bytes};
ghost use Rattle.sp_words.specs.CommandLines.{IsCommandLine};
ghost use Rattle.sp_words.specs.CommandLines as lines;
ghost use Rattle.sp_top.specs.Commands.{IsInRange, Says};

use sp_base::Memory;
use sp_client::read_request;
use sp_offline::{Offline, Query};
use sp_words::{Ask, CommandLine, PathsQuery, WordsRefused, parse};
use std::alloc::Global;

/// What the program is to do.
#[derive(Clone, Copy, Debug)]
pub enum Command<'a> {
    /// A schedule is run.
    Replay,
    /// The schedule of this number is run.
    Generate(u32),
    Offline(Offline),
    /// A daemon's recording is verified.
    Verify,
    /// A daemon serves for so many turns.
    Daemon(u32),
    /// The key file is made.
    Format,
    /// A daemon of this machine is asked.
    Ask(Ask<'a>),
}

/// The command of these words. None exactly where they are no command.
#[tactic(auto, using(crate::proofs::Said::no_line))]
pub fn command_of(alloc: Global, words: &[String]) -> Result<Option<Command<'_>>, Memory>
    ensures said { IfOk result (Says (map string_bytes words.now)) }
    ensures range { IfOk result (λ said. IfSome said IsInRange) }
{
    match parse(alloc, words) {
        Ok(line) => of_line(alloc, line),
        Err(WordsRefused::Usage) => Ok(None),
        Err(WordsRefused::Memory) => Err(Memory),
    }
}

/// The command of a command line.
#[tactic(auto, using(crate::proofs::Said::of_no_request))]
fn of_line<'a>(alloc: Global, line: CommandLine<'a>) -> Result<Option<Command<'a>>, Memory>
    requires { lines.IsInRange line }
    ensures said { (words : List (List ℕ)) → IsCommandLine words line.entry → IfOk result (Says words) }
    ensures range { IfOk result (λ said. IfSome said IsInRange) }
{
    match line {
        CommandLine::Replay => Ok(Some(Command::Replay)),
        CommandLine::Topology => Ok(Some(Command::Offline(Offline::Topology))),
        CommandLine::Format => Ok(Some(Command::Format)),
        CommandLine::Verify => Ok(Some(Command::Verify)),
        CommandLine::Paths(query) => Ok(Some(Command::Offline(Offline::Paths(query_of(query))))),
        CommandLine::Generate { seed } => Ok(Some(Command::Generate(seed))),
        CommandLine::Daemon { turns } => Ok(Some(Command::Daemon(turns))),
        CommandLine::Ask(ask) => of_ask(alloc, ask),
    }
}

fn query_of(query: PathsQuery) -> Query
    ensures from { result.from ≡ query.from }
    ensures to { result.to ≡ query.to }
    ensures paths { result.paths ≡ query.paths }
{
    Query {
        from: query.from,
        to: query.to,
        paths: query.paths,
    }
}

/// A question, where its text is a request.
fn of_ask<'a>(alloc: Global, ask: Ask<'a>) -> Result<Option<Command<'a>>, Memory>
    requires { lines.IsAsk ask }
    ensures said { (words : List (List ℕ)) → IsCommandLine words (CommandLine.Ask ask.entry) → IfOk result (Says words) }
    ensures range { IfOk result (λ said. IfSome said IsInRange) }
{
    match read_request(alloc, ask.request.as_bytes())? {
        Some(_) => Ok(Some(Command::Ask(ask))),
        None => Ok(None),
    }
}
