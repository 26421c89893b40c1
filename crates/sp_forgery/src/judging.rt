// What of an arrival is forged: its tag, or else the first object in the order of handling, or its document.
ghost use Rattle.std.specs.Prelude.{ℕ, ◌≡◌, ◌≤◌, ◌++◌, List, [], IfSome, None as Nothing, length, map, option_map, vec_capacity};
ghost use Rattle.sp_frame.specs.Frames.{opened_in, sections_part};
ghost use Rattle.sp_frame.specs.Sections.{sections_of_in};
ghost use Rattle.sp_node_format.specs.Format.{format_in};
ghost use Rattle.sp_rules.specs.Arrivals.{handled, reply_at};
ghost use Rattle.sp_rules.specs.Node.{NodeState, call_refusal};
ghost use Rattle.sp_base.specs.declared.id.NodeId.{NodeId};
ghost use Rattle.sp_rules.specs.Steps.{Datagram};
ghost use Rattle.sp_rules.specs.declared.answers.Item.{Item as Answer};
ghost use Rattle.sp_runs.specs.Forgery.{forged, forged_object};
ghost use Rattle.sp_runs.specs.Scenarios.{setting_of};
ghost use Rattle.sp_runs.specs.Worlds.{World};
ghost use Rattle.sp_forgery.specs.Brought.{as_brought, brought_at};
ghost use Rattle.sp_forgery.specs.Found.{Answered, answered, found_at};
ghost use Rattle.sp_forgery.specs.Whats.{IsShort, what_of};

use crate::documents::{Brought, forged_document};
use crate::objects::{Known, first_forged};
use crate::tags::has_forged_tag;
use sp_base::{Bytes, NodeId};
use sp_frame::Frame;
use sp_rules::{Item, LinkReply, Step, Taken};
use sp_runs::What;
use sp_world_steps::Directions;

/// How long a message is at most.
pub const MAX_MESSAGE_BYTES: usize = 1_086;

/// What of an arrival is forged, as it stands in the datagram: an object, or a document.
#[derive(Clone, Copy, Debug)]
pub enum Forgery<'a> {
    Tag,
    Object(&'a [u8]),
}

impl Forgery<'_> {
    /// The same with bytes of its own, in an empty vector that has room for them. It takes no memory.
    pub fn copied(&self, mut room: Vec<u8>) -> What
        requires empty { room.items ≡ [] }
        requires short { IsShort (vec_capacity room) self.now }
        ensures { result ≡ what_of self.now }
    {
        match self {
            Forgery::Tag => What::Tag,
            Forgery::Object(body) => {
                fill(&mut room, body);
                What::Object(Bytes::from_vec(room))
            }
        }
    }
}

/// Writes bytes into an empty vector that has room for them.
fn fill(room: &mut Vec<u8>, bytes: &[u8])
    requires empty { room.old.items ≡ [] }
    requires room { length bytes.now ≤ vec_capacity room.old }
    ensures { room.new.items ≡ bytes.now }
{
    match room.extend_from_slice(bytes) {
        Ok(()) => {}
        Err(_) => unreachable!(),
    }
}

/// What of an arrival at `v` from `u` is forged, by what the node answered. None exactly where nothing is. It takes no memory. What it gives is no longer
/// than any message or the datagram.
#[tactic(auto, using(crate::proofs::Rules::judged))]
pub fn judge<'a>(
    known: &Known<'_>,
    directions: &Directions,
    u: NodeId,
    v: NodeId,
    bytes: &'a [u8],
    brought: &Option<Brought<'a>>,
    step: &Step<Taken>,
) -> Option<Forgery<'a>>
    requires even { length known.now.events.now ≡ length known.now.journal.now }
    requires brought { option_map as_brought brought.now ≡ brought_at (opened_in known.now.scenario.now.format bytes.now)
        (sections_of_in known.now.scenario.now.format known.now.signature_len (sections_part bytes.now)) }
    ensures judged { (n new : NodeState) (w : World) → n.fixed.me ≡ v → n.fixed.signature_len ≡ known.now.signature_len
        → n.fixed.epochs ≡ known.now.scenario.now.epochs → call_refusal n u ≡ Nothing → w.directions ≡ directions.now
        → Answered known.now.scenario.now.format n u bytes.now step.now new
        → option_map what_of result ≡ forged (format_in known.now.scenario.now.format) (setting_of known.now.scenario.now)
        known.now.events.now known.now.journal.now w n
        (Datagram u bytes.now) (answered known.now.scenario.now.format n u bytes.now step.now) }
    ensures short { (n new : NodeState) → n.fixed.signature_len ≡ known.now.signature_len → n.fixed.epochs ≡ known.now.scenario.now.epochs
        → call_refusal n u ≡ Nothing
        → Answered known.now.scenario.now.format n u bytes.now step.now new
        → (room : ℕ) → MAX_MESSAGE_BYTES ≤ room → length bytes.now ≤ room → IfSome result (IsShort room) }
{
    if has_forged_tag(known.scenario, directions, u, v, bytes, &step.reply.link) {
        return Some(Forgery::Tag);
    }
    let items = step.reply.items.as_slice();
    if let Some(body) = forged_in(known, &step.reply.link, bytes, items) {
        return Some(Forgery::Object(body));
    }
    match forged_document(known.events, &step.reply.link, items, brought) {
        Some(document) => Some(Forgery::Object(document)),
        None => None,
    }
}

/// The first object that is forged, of a datagram that was answered so.
#[tactic(auto, using(crate::proofs::Finding::fresh_is, crate::proofs::Finding::stale_is))]
fn forged_in<'a>(
    known: &Known<'_>,
    link: &LinkReply,
    bytes: &'a [u8],
    items: &[Item],
) -> Option<&'a [u8]>
    requires { length known.now.events.now ≡ length known.now.journal.now }
    ensures { (n : NodeState) (u : NodeId) → n.fixed.signature_len ≡ known.now.signature_len → n.fixed.epochs ≡ known.now.scenario.now.epochs
        → link.now ≡ reply_at (format_in known.now.scenario.now.format) n u bytes.now
        → (more : List Answer) → items.now ≡ map (λ a. a.1) (handled (format_in known.now.scenario.now.format) n u bytes.now).answered ++ more
        → option_map (λ b. b.now) result ≡ forged_object (format_in known.now.scenario.now.format) (setting_of known.now.scenario.now)
        known.now.events.now known.now.journal.now
        (handled (format_in known.now.scenario.now.format) n u bytes.now).answered }
{
    match link {
        LinkReply::Fresh => found(known, bytes, items),
        _ => None,
    }
}

/// The first one of a datagram that is a frame with sections.
fn found<'a>(known: &Known<'_>, bytes: &'a [u8], items: &[Item]) -> Option<&'a [u8]>
    requires { length known.now.events.now ≡ length known.now.journal.now }
    ensures { option_map (λ b. b.now) result
        ≡ found_at (setting_of known.now.scenario.now) known.now.events.now known.now.journal.now (opened_in known.now.scenario.now.format bytes.now)
        (sections_of_in known.now.scenario.now.format known.now.signature_len (sections_part bytes.now)) items.now }
{
    let Ok(frame) = Frame::open_in(bytes, known.scenario.format) else {
        return None;
    };
    let Ok(sections) = frame.sections(known.signature_len) else {
        return None;
    };
    first_forged(known, &sections, items)
}
