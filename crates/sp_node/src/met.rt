// What becomes of a frame after its link's answer: its reply, with its sections or its document where they are to be handled.
ghost use Rattle.std.specs.Prelude.{◌≡◌, IfSome, None as Nothing, Ok, option_map, slice_index};
ghost use Rattle.sp_base.specs.Cursor.{or_else};
ghost use Rattle.sp_rules.specs.Node.{is_shut_to};
ghost use Rattle.laws_node.specs.Nodes.{IsKept};
ghost use Rattle.sp_node_format.specs.Format.{format_of};
ghost use Rattle.sp_frame.specs.Frames.{sections_part};
ghost use Rattle.sp_frame.specs.OfFormat.{AreOf};
ghost use Rattle.sp_frame.specs.Sections.{has_document};
ghost use Rattle.sp_frame.specs.Views.{as_contents};
ghost use Rattle.sp_node.specs.Arrived.{IsMet, pieces_with, tests_after};
ghost use Rattle.sp_rules.specs.Arrivals.{document_where, heeded, not_fresh, not_open, or_fresh, pieces_in, pieces_where};

use sp_base::{FORMAT_1, NodeId};
use sp_frame::{Frame, HEAD_BYTES, Sections};
use sp_node_parts::Fixed;
use sp_node_state::State;
use sp_rules::{LinkAnswer, LinkReply};

/// The first byte of the control part of a frame with a document.
const DOCUMENT: u8 = 128;

/// What became of a frame after its link's answer, with its sections or its document where they are to be handled.
#[derive(Debug, Drop)]
pub struct Met<'a> {
    pub reply: LinkReply,
    pub sections: Option<Sections<'a>>,
    pub document: Option<&'a [u8]>,
}

/// What becomes of a frame after its link's answer.
pub fn after_link<'a>(state: &State, from: NodeId, answer: LinkAnswer, frame: &Frame<'a>) -> Met<'a>
    requires kept { IsKept (format_of state.now.fixed) state.now }
    requires format { slice_index frame.now 2 ≡ state.now.fixed.topology.format }
    ensures { IsMet state.entry.now from frame.now (or_else (not_fresh answer) (tests_after state.entry.now from frame.now)) result }
{
    match answer {
        LinkAnswer::NotForMe => told(LinkReply::NotForMe),
        LinkAnswer::BadTag => told(LinkReply::BadTag),
        LinkAnswer::Learned { boot } => told(LinkReply::Learned { boot }),
        LinkAnswer::Stale { boot, counter } => told(LinkReply::Stale { boot, counter }),
        LinkAnswer::Fresh => of_fresh(state, from, frame),
    }
}

/// Nothing is handled.
fn told<'a>(reply: LinkReply) -> Met<'a>
    ensures reply { result.reply ≡ reply }
    ensures sections { result.sections ≡ Nothing }
    ensures document { result.document ≡ Nothing }
{
    Met {
        reply,
        sections: None,
        document: None,
    }
}

/// What becomes of a fresh frame.
fn of_fresh<'a>(state: &State, from: NodeId, frame: &Frame<'a>) -> Met<'a>
    requires kept { IsKept (format_of state.now.fixed) state.now }
    requires format { slice_index frame.now 2 ≡ state.now.fixed.topology.format }
    ensures { IsMet state.entry.now from frame.now (tests_after state.entry.now from frame.now) result }
{
    let theirs = frame.head().topology;
    if theirs != state.live.version && !has_document(&state.fixed, frame) {
        return told(LinkReply::OtherTopology { theirs });
    }
    match frame.sections(state.fixed.signature_len) {
        Ok(sections) => of_sections(state, from, sections),
        Err(refused) => told(LinkReply::Section(refused)),
    }
}

/// Whether the control part of a frame begins as that of a document does.
fn has_document(fixed: &Fixed, frame: &Frame<'_>) -> bool
    ensures { result ≡ has_document fixed.now.topology.format (sections_part frame.now) }
{
    if fixed.topology.format == FORMAT_1 {
        return false;
    }
    match frame.tagged_part().get(HEAD_BYTES) {
        Some(first) => *first == DOCUMENT,
        None => false,
    }
}

/// What becomes of sections that were read: over an edge that is withdrawn only a document is handled.
fn of_sections<'a>(state: &State, from: NodeId, sections: Sections<'a>) -> Met<'a>
    requires kept { IsKept (format_of state.now.fixed) state.now }
    requires formats { AreOf state.now.fixed.topology.format sections }
    ensures reply { result.reply ≡ or_fresh (not_open (as_contents sections.entry).document (is_shut_to state.entry.now from)) }
    ensures pieces { pieces_with result.sections ≡ pieces_where result.reply (pieces_in state.entry.now.fixed (Ok (as_contents sections.entry))) }
    ensures document { option_map (λ d. d.now) result.document ≡ document_where result.reply (as_contents sections.entry).document }
    ensures formats { IfSome result.sections (AreOf state.entry.now.fixed.topology.format) }
{
    if let Some(document) = sections.document {
        return Met {
            reply: LinkReply::Fresh,
            sections: None,
            document: Some(document),
        };
    }
    if state.is_shut_to(from) {
        return told(LinkReply::Withdrawn);
    }
    Met {
        reply: LinkReply::Fresh,
        sections: Some(heeded(&state.fixed, sections)),
        document: None,
    }
}

/// These sections without their Epoch object where nodes run without epochs.
fn heeded<'a>(fixed: &Fixed, sections: Sections<'a>) -> Sections<'a>
    requires { AreOf fixed.now.topology.format sections }
    ensures contents { as_contents result ≡ heeded fixed.now (as_contents sections.entry) }
    ensures formats { AreOf fixed.now.topology.format result }
{
    let mut sections = sections;
    if !fixed.epochs {
        sections.epoch = None;
    }
    sections
}
