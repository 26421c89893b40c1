// What an offline command answers.
ghost use Rattle.std.specs.Prelude.{◌≡◌, ◌≤◌, IfOk, length};
ghost use Rattle.sp_base.specs.declared.limits.TheConstants.{MAX_INPUT_BYTES};
ghost use Rattle.sp_offline.specs.Queries.{IsQuery};
ghost use Rattle.sp_offline.specs.Answers.{IsAnswered};
ghost use Rattle.sp_offline.specs.Ranges.{IsOffline};

use crate::{DraftAnswer, Offline, PathsAnswer, Query, cheapest_paths, signed_topology};
use sp_base::{Bytes, Memory};
use std::alloc::Global;

/// How a command came out.
#[derive(Clone, Copy, Debug, PartialEq, Eq)]
pub enum Verdict {
    /// It was done.
    Done,
    /// There are fewer disjoint paths than were asked for.
    Fewer,
    /// Its input is refused.
    Refused,
}

/// How a command came out, and its whole output.
#[derive(Debug, Drop)]
pub struct Answered {
    pub verdict: Verdict,
    pub text: Bytes,
}

/// The answer of a command for its whole input. A text that `is_cut` had more bytes than may be read. Only want of memory gives none.
pub fn answer(
    alloc: Global,
    command: &Offline,
    text: &[u8],
    is_cut: bool,
) -> Result<Answered, Memory>
    requires command { IsOffline command.now }
    requires size { length text.now ≤ MAX_INPUT_BYTES }
    ensures { IfOk result (λ a. IsAnswered command.now text.now is_cut a.verdict a.text) }
{
    match command {
        Offline::Topology => of_draft(alloc, text, is_cut),
        Offline::Paths(query) => of_graph(alloc, query, text, is_cut),
    }
}

fn of_draft(alloc: Global, text: &[u8], is_cut: bool) -> Result<Answered, Memory>
    ensures { IfOk result (λ a. IsAnswered Offline.Topology text.now is_cut a.verdict a.text) }
{
    let (verdict, text) = match signed_topology(alloc, text, is_cut)? {
        DraftAnswer::Signed(out) => (Verdict::Done, out),
        DraftAnswer::Refused(out) => (Verdict::Refused, out),
    };
    Ok(Answered { verdict, text })
}

fn of_graph(alloc: Global, query: &Query, text: &[u8], is_cut: bool) -> Result<Answered, Memory>
    requires query { IsQuery query.now }
    requires size { length text.now ≤ MAX_INPUT_BYTES }
    ensures { IfOk result (λ a. IsAnswered (Offline.Paths query.now) text.now is_cut a.verdict a.text) }
{
    let (verdict, text) = match cheapest_paths(alloc, query, text, is_cut)? {
        PathsAnswer::Found(out) => (Verdict::Done, out),
        PathsAnswer::Fewer(out) => (Verdict::Fewer, out),
        PathsAnswer::Refused(out) => (Verdict::Refused, out),
    };
    Ok(Answered { verdict, text })
}
