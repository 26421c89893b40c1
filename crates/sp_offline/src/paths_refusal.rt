// The line that refuses a graph's text: the bad line's number and why.
ghost use Rattle.std.specs.Prelude.{◌≡◌, IfOk};
ghost use Rattle.sp_offline.specs.PathsRefusals.{kind_word, line_of, refused_line, text_line, text_word};

use sp_base::{Bytes, Memory};
use sp_graph::GraphRefused;
use sp_text::{TextRefused, push_number};
use std::alloc::Global;

/// The line `refused LINE KIND` of a text's refusal.
pub fn graph_refused_line(alloc: Global, refused: &GraphRefused) -> Result<Bytes, Memory>
    ensures { IfOk result (λ out. out ≡ refused_line (line_of refused.now) (kind_word refused.now)) }
{
    refused_line(alloc, line_of(*refused), kind_word(*refused))
}

/// The line `refused LINE KIND`.
#[tactic(auto, unfolding(crate::specs::PathsRefusals::refused_line))]
pub fn refused_line(alloc: Global, line: u32, kind: &str) -> Result<Bytes, Memory>
    ensures { IfOk result (λ out. out ≡ refused_line line kind.now) }
{
    let mut out = String::new(alloc);
    out.push_str("refused ")?;
    push_number(&mut out, u64::from(line))?;
    out.push_str(" ")?;
    out.push_str(kind)?;
    out.push_str("\n")?;
    Bytes::copy(alloc, out.as_bytes())
}

fn line_of(refused: GraphRefused) -> u32
    ensures { result ≡ line_of refused }
{
    match refused {
        GraphRefused::Text(text) => text_line(text),
        GraphRefused::Form { line }
        | GraphRefused::Range { line }
        | GraphRefused::NoEnd { line }
        | GraphRefused::AfterEnd { line } => line,
        GraphRefused::Memory => 0,
    }
}

fn text_line(refused: TextRefused) -> u32
    ensures { result ≡ text_line refused }
{
    match refused {
        TextRefused::LineLong(place)
        | TextRefused::Cut(place)
        | TextRefused::BadWord(place)
        | TextRefused::BadNumber(place)
        | TextRefused::BadHex(place) => place.line,
        TextRefused::Memory => 0,
    }
}

fn kind_word(refused: GraphRefused) -> &'static str
    ensures { result.now ≡ kind_word refused }
{
    match refused {
        GraphRefused::Text(text) => text_word(text),
        GraphRefused::Form { .. } => "Event",
        GraphRefused::Range { .. } => "Range",
        GraphRefused::NoEnd { .. } => "NoEnd",
        GraphRefused::AfterEnd { .. } => "AfterEnd",
        GraphRefused::Memory => "Memory",
    }
}

fn text_word(refused: TextRefused) -> &'static str
    ensures { result.now ≡ text_word refused }
{
    match refused {
        TextRefused::LineLong(_) => "LineLong",
        TextRefused::Cut(_) => "Cut",
        TextRefused::BadWord(_) => "Word",
        TextRefused::BadNumber(_) => "Number",
        TextRefused::BadHex(_) => "Hex",
        TextRefused::Memory => "Memory",
    }
}
