// The rows of replies with numbers or bytes, each read by its own call.
ghost use Rattle.std.specs.Prelude.{◌≡◌, [], ◌∷◌, codes};
ghost use Rattle.sp_lines.specs.Answers.{Reads};
ghost use Rattle.sp_journal_reading.specs.ReplyTable.{read_form, without_items};
ghost use Rattle.sp_journal_reading.specs.ReplyTable as forms;

use sp_base::{Listed, MAX_NODES_2, MAX_PAYLOAD_BYTES, MAX_SEQ, NodeId};
use sp_journal::{LinkWord, Reply};
use sp_lines::{Fault, LineRefused, bytes, ranged};
use std::alloc::Global;

/// What a link answered that took no object.
pub fn arrived(alloc: Global, link: LinkWord) -> Reply
    ensures { result ≡ without_items link }
{
    Reply::Arrived {
        link,
        items: Listed::from_vec(Vec::new(alloc)),
    }
}

#[tactic(auto, unfolding(crate::specs::ReplyTable::read_form))]
pub fn accepted(seq: &[u8]) -> Result<Reply, LineRefused>
    ensures { Reads result (read_form forms.Accepted (codes "accepted" ∷ seq.now ∷ [])) }
{
    let seq = ranged(seq, 1, MAX_SEQ)?;
    Ok(Reply::Accepted { seq })
}

#[tactic(auto, unfolding(crate::specs::ReplyTable::read_form))]
pub fn full(base: &[u8], have: &[u8]) -> Result<Reply, LineRefused>
    ensures { Reads result (read_form forms.Full (codes "full" ∷ base.now ∷ have.now ∷ [])) }
{
    let base = ranged(base, 0, u64::MAX)?;
    let have = ranged(have, 0, u64::MAX)?;
    Ok(Reply::Full { base, have })
}

#[tactic(auto, unfolding(crate::specs::ReplyTable::read_form))]
pub fn spent(index: &[u8]) -> Result<Reply, LineRefused>
    ensures { Reads result (read_form forms.Spent (codes "spent" ∷ index.now ∷ [])) }
{
    let index = ranged(index, 0, u64::MAX)?;
    Ok(Reply::Spent { index })
}

#[tactic(auto, unfolding(crate::specs::ReplyTable::read_form))]
pub fn expired(now: &[u8]) -> Result<Reply, LineRefused>
    ensures { Reads result (read_form forms.Expired (codes "expired" ∷ now.now ∷ [])) }
{
    let now = ranged(now, 0, u64::MAX)?;
    Ok(Reply::Expired { now })
}

#[tactic(auto, unfolding(crate::specs::ReplyTable::read_form))]
pub fn no_paths(found: &[u8]) -> Result<Reply, LineRefused>
    ensures { Reads result (read_form forms.NoPaths (codes "nopaths" ∷ found.now ∷ [])) }
{
    let found = ranged(found, 0, 255)? as u8;
    Ok(Reply::NoPaths { found })
}

#[tactic(auto, unfolding(crate::specs::ReplyTable::read_form))]
pub fn busy(paths: &[u8]) -> Result<Reply, LineRefused>
    ensures { Reads result (read_form forms.Busy (codes "busy" ∷ paths.now ∷ [])) }
{
    let paths = ranged(paths, 0, 255)? as u8;
    Ok(Reply::Busy { paths })
}

#[tactic(auto, unfolding(crate::specs::ReplyTable::read_form))]
pub fn payload(alloc: Global, payload: &[u8]) -> Result<Reply, LineRefused>
    ensures { Reads result (read_form forms.Payload (codes "payload" ∷ payload.now ∷ [])) }
{
    let payload = bytes(alloc, payload, 0, MAX_PAYLOAD_BYTES)?;
    Ok(Reply::Payload(payload))
}

#[tactic(auto, unfolding(crate::specs::ReplyTable::read_form))]
pub fn payload_prio(
    alloc: Global,
    src: &[u8],
    seq: &[u8],
    payload: &[u8],
) -> Result<Reply, LineRefused>
    ensures { Reads result (read_form forms.PayloadPrio (codes "payload" ∷ src.now ∷ seq.now ∷ payload.now ∷ [])) }
{
    let src = ranged(src, 1, u64::from(MAX_NODES_2))? as u8;
    let seq = ranged(seq, 1, MAX_SEQ)?;
    let payload = bytes(alloc, payload, 0, MAX_PAYLOAD_BYTES)?;
    Ok(Reply::PayloadPrio {
        src: NodeId(src),
        seq,
        payload,
    })
}

#[tactic(auto, unfolding(crate::specs::ReplyTable::read_form))]
pub fn tick_spent(index: &[u8]) -> Result<Reply, LineRefused>
    ensures { Reads result (read_form forms.TickSpent (codes "tickspent" ∷ index.now ∷ [])) }
{
    let index = ranged(index, 0, u64::MAX)?;
    Ok(Reply::TickSpent { index })
}

#[tactic(auto, unfolding(crate::specs::ReplyTable::read_form))]
pub fn tick_not_reserved(bound: &[u8]) -> Result<Reply, LineRefused>
    ensures { Reads result (read_form forms.TickNotReserved (codes "ticknotreserved" ∷ bound.now ∷ [])) }
{
    let bound = ranged(bound, 0, u64::MAX)?;
    Ok(Reply::TickNotReserved { bound })
}

#[tactic(auto, unfolding(crate::specs::ReplyTable::read_form))]
pub fn low(min: &[u8]) -> Result<Reply, LineRefused>
    ensures { Reads result (read_form forms.Low (codes "low" ∷ min.now ∷ [])) }
{
    let min = ranged(min, 0, u64::from(u32::MAX))? as u32;
    Ok(Reply::Low { min })
}

#[tactic(auto, unfolding(crate::specs::ReplyTable::read_form))]
pub fn started(boot: &[u8], index: &[u8]) -> Result<Reply, LineRefused>
    ensures { Reads result (read_form forms.Started (codes "started" ∷ boot.now ∷ index.now ∷ [])) }
{
    let boot = ranged(boot, 0, u64::MAX)?;
    let index = ranged(index, 0, u64::MAX)?;
    Ok(Reply::Started { boot, index })
}

#[tactic(auto, unfolding(crate::specs::ReplyTable::read_form))]
pub fn exhausted(bound: &[u8]) -> Result<Reply, LineRefused>
    ensures { Reads result (read_form forms.Exhausted (codes "exhausted" ∷ bound.now ∷ [])) }
{
    let bound = ranged(bound, 0, u64::MAX)?;
    Ok(Reply::Exhausted { bound })
}

#[tactic(auto, unfolding(crate::specs::ReplyTable::read_form))]
pub fn adopted(version: &[u8]) -> Result<Reply, LineRefused>
    ensures { Reads result (read_form forms.Adopted (codes "adopted" ∷ version.now ∷ [])) }
{
    let version = ranged(version, 0, u64::from(u32::MAX))? as u32;
    Ok(Reply::Adopted { version })
}

#[tactic(auto, unfolding(crate::specs::ReplyTable::read_form))]
pub fn frame(
    alloc: Global,
    number: &[u8],
    length: &[u8],
    digest: &[u8],
) -> Result<Reply, LineRefused>
    ensures { Reads result (read_form forms.Frame (codes "frame" ∷ number.now ∷ length.now ∷ digest.now ∷ [])) }
{
    let number = ranged(number, 0, u64::from(u32::MAX))? as u32;
    let length = ranged(length, 0, u64::from(u32::MAX))? as u32;
    let digest = sp_lines::digest(alloc, digest)?;
    Ok(Reply::Frame {
        number,
        length,
        digest,
    })
}

#[tactic(auto, unfolding(crate::specs::ReplyTable::read_form))]
pub fn short(alloc: Global, need: &[u8], left: &[u8]) -> Result<Reply, LineRefused>
    ensures { Reads result (read_form forms.Short (codes "short" ∷ need.now ∷ left.now ∷ [])) }
{
    let need = ranged(need, 0, u64::MAX)?;
    let left = ranged(left, 0, u64::MAX)?;
    Ok(arrived(alloc, LinkWord::Short { need, left }))
}

#[tactic(auto, unfolding(crate::specs::ReplyTable::read_form))]
pub fn learned(alloc: Global, boot: &[u8]) -> Result<Reply, LineRefused>
    ensures { Reads result (read_form forms.Learned (codes "learned" ∷ boot.now ∷ [])) }
{
    let boot = ranged(boot, 0, u64::MAX)?;
    Ok(arrived(alloc, LinkWord::Learned { boot }))
}

#[tactic(auto, unfolding(crate::specs::ReplyTable::read_form))]
pub fn stale(alloc: Global, boot: &[u8], counter: &[u8]) -> Result<Reply, LineRefused>
    ensures { Reads result (read_form forms.Stale (codes "stale" ∷ boot.now ∷ counter.now ∷ [])) }
{
    let boot = ranged(boot, 0, u64::MAX)?;
    let counter = ranged(counter, 0, u64::MAX)?;
    Ok(arrived(alloc, LinkWord::Stale { boot, counter }))
}

#[tactic(auto, unfolding(crate::specs::ReplyTable::read_form))]
pub fn topology(alloc: Global, theirs: &[u8]) -> Result<Reply, LineRefused>
    ensures { Reads result (read_form forms.Topology (codes "topology" ∷ theirs.now ∷ [])) }
{
    let theirs = ranged(theirs, 0, u64::from(u32::MAX))? as u32;
    Ok(arrived(alloc, LinkWord::Topology { theirs }))
}
