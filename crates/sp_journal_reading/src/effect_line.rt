// The line of an effect, read.
ghost use Rattle.std.specs.Prelude.{◌≡◌, [], ◌∷◌, codes, map};
ghost use Rattle.sp_base.specs.Refusals.{Gives};
ghost use Rattle.sp_base.specs.declared.limits.TheConstants.{MAX_NODES_2};
ghost use Rattle.sp_lines.specs.Answers.{Reads};
ghost use Rattle.sp_lines.specs.Cells.{number_at};
ghost use Rattle.sp_journal.specs.Words.{why_word};
ghost use Rattle.sp_journal_reading.specs.EffectTable.{kind_word, read_effect, read_form};
ghost use Rattle.sp_journal_reading.specs.EffectTable as forms;

use sp_base::{
    EdgeId, Flow, MAX_EDGES_2, MAX_NODES_2, MAX_PAYLOAD_BYTES, MAX_PRIORITY, MAX_SEQ, MAX_WEIGHT,
    NodeId,
};
use sp_lines::{Fault, LineRefused, bytes, named, ranged};
use sp_msg::{Effect, Why};
use std::alloc::Global;

/// Which kind of message was delivered.
#[derive(Clone, Copy, Debug, PartialEq, Eq)]
pub(crate) enum Kind {
    Rel,
    Prio,
    Krel,
}

/// The longest body of a message.
const MAX_BODY_BYTES: usize = 62 + MAX_PAYLOAD_BYTES;

/// The effect of the words of a line after its plus, or the first fault.
pub fn read_effect(alloc: Global, words: &[&[u8]]) -> Result<Effect, LineRefused>
    ensures { Reads result (read_effect (map (λ w. w.now) words.now)) }
{
    match words {
        [name, a] => two(alloc, name, a),
        [name, a, b] => three(name, a, b),
        [name, a, b, c] => four(name, a, b, c),
        [name, a, b, c, d] => five(alloc, name, a, b, c, d),
        [name, a, b, c, d, e] => six(name, a, b, c, d, e),
        _ => Err(LineRefused::Bad(Fault::Form)),
    }
}

fn two(alloc: Global, name: &[u8], body: &[u8]) -> Result<Effect, LineRefused>
    ensures { Reads result (read_effect (name.now ∷ body.now ∷ [])) }
{
    if named(name, b"signed") {
        return signed(alloc, body);
    }
    if named(name, b"version") {
        return version(body);
    }
    Err(LineRefused::Bad(Fault::Form))
}

fn three(name: &[u8], src: &[u8], dst: &[u8]) -> Result<Effect, LineRefused>
    ensures { Reads result (read_effect (name.now ∷ src.now ∷ dst.now ∷ [])) }
{
    if named(name, b"ended") {
        return ended(src, dst);
    }
    if named(name, b"kended") {
        return kended(src, dst);
    }
    Err(LineRefused::Bad(Fault::Form))
}

fn four(name: &[u8], place: &[u8], id: &[u8], why: &[u8]) -> Result<Effect, LineRefused>
    ensures { Reads result (read_effect (name.now ∷ place.now ∷ id.now ∷ why.now ∷ [])) }
{
    if !named(name, b"gone") {
        return Err(LineRefused::Bad(Fault::Form));
    }
    if named(why, b"evicted") {
        return gone(place, id, Why::Evicted);
    }
    if named(why, b"expired") {
        return gone(place, id, Why::Expired);
    }
    if named(why, b"acked") {
        return gone(place, id, Why::Acked);
    }
    if named(why, b"taken") {
        return gone(place, id, Why::Taken);
    }
    if named(why, b"withdrawn") {
        return gone(place, id, Why::Withdrawn);
    }
    Err(LineRefused::Bad(Fault::Form))
}

fn six(
    name: &[u8],
    place: &[u8],
    id: &[u8],
    src: &[u8],
    seq: &[u8],
    prio: &[u8],
) -> Result<Effect, LineRefused>
    ensures { Reads result (read_effect (name.now ∷ place.now ∷ id.now ∷ src.now ∷ seq.now ∷ prio.now ∷ [])) }
{
    if named(name, b"stored") {
        return stored(place, id, src, seq, prio);
    }
    Err(LineRefused::Bad(Fault::Form))
}

fn five(
    alloc: Global,
    name: &[u8],
    a: &[u8],
    b: &[u8],
    c: &[u8],
    d: &[u8],
) -> Result<Effect, LineRefused>
    ensures { Reads result (read_effect (name.now ∷ a.now ∷ b.now ∷ c.now ∷ d.now ∷ [])) }
{
    if named(name, b"weight") {
        return weight(a, b, c, d);
    }
    if !named(name, b"delivered") {
        return Err(LineRefused::Bad(Fault::Form));
    }
    if named(a, b"rel") {
        return delivered(alloc, Kind::Rel, b, c, d);
    }
    if named(a, b"prio") {
        return delivered(alloc, Kind::Prio, b, c, d);
    }
    if named(a, b"krel") {
        return delivered(alloc, Kind::Krel, b, c, d);
    }
    Err(LineRefused::Bad(Fault::Form))
}

fn node(word: &[u8]) -> Result<NodeId, Fault>
    ensures { Gives (λ id. id.0) result (number_at 1 MAX_NODES_2 word.now) }
{
    let n = ranged(word, 1, u64::from(MAX_NODES_2))?;
    Ok(NodeId(n as u8))
}

#[tactic(auto, unfolding(crate::specs::EffectTable::read_form))]
fn signed(alloc: Global, body: &[u8]) -> Result<Effect, LineRefused>
    ensures { Reads result (read_form forms.Signed (codes "signed" ∷ body.now ∷ [])) }
{
    let body = bytes(alloc, body, 0, MAX_BODY_BYTES)?;
    Ok(Effect::Signed(body))
}

#[tactic(auto, unfolding(crate::specs::EffectTable::read_form))]
fn stored(
    place: &[u8],
    id: &[u8],
    src: &[u8],
    seq: &[u8],
    prio: &[u8],
) -> Result<Effect, LineRefused>
    ensures { Reads result (read_form forms.Stored (codes "stored" ∷ place.now ∷ id.now ∷ src.now ∷ seq.now ∷ prio.now ∷ [])) }
{
    let place = ranged(place, 0, u64::from(MAX_NODES_2))? as u8;
    let id = ranged(id, 0, u64::MAX)?;
    let src = node(src)?;
    let seq = ranged(seq, 1, MAX_SEQ)?;
    let prio = ranged(prio, 1, u64::from(MAX_PRIORITY))? as u8;
    Ok(Effect::Stored {
        place,
        id,
        src,
        seq,
        prio,
    })
}

#[tactic(auto, unfolding(crate::specs::EffectTable::read_form))]
fn gone(place: &[u8], id: &[u8], why: Why) -> Result<Effect, LineRefused>
    ensures { Reads result (read_form (forms.Gone why) (codes "gone" ∷ place.now ∷ id.now ∷ why_word why ∷ [])) }
{
    let place = ranged(place, 0, u64::from(MAX_NODES_2))? as u8;
    let id = ranged(id, 0, u64::MAX)?;
    Ok(Effect::Gone { place, id, why })
}

#[tactic(auto, unfolding(crate::specs::EffectTable::read_form))]
fn delivered(
    alloc: Global,
    kind: Kind,
    src: &[u8],
    seq: &[u8],
    payload: &[u8],
) -> Result<Effect, LineRefused>
    ensures { Reads result
        (read_form (forms.Delivered kind) (codes "delivered" ∷ kind_word kind ∷ src.now ∷ seq.now ∷ payload.now ∷ [])) }
{
    let src = node(src)?;
    let seq = ranged(seq, 1, MAX_SEQ)?;
    let payload = bytes(alloc, payload, 0, MAX_PAYLOAD_BYTES)?;
    Ok(match kind {
        Kind::Rel => Effect::Delivered { src, seq, payload },
        Kind::Prio => Effect::DeliveredPrio { src, seq, payload },
        Kind::Krel => Effect::DeliveredKrel { src, seq, payload },
    })
}

#[tactic(auto, unfolding(crate::specs::EffectTable::read_form))]
fn weight(origin: &[u8], edge: &[u8], seq: &[u8], weight: &[u8]) -> Result<Effect, LineRefused>
    ensures { Reads result (read_form forms.Weight (codes "weight" ∷ origin.now ∷ edge.now ∷ seq.now ∷ weight.now ∷ [])) }
{
    let origin = node(origin)?;
    let edge = ranged(edge, 0, u64::from(MAX_EDGES_2) - 1)? as u16;
    let seq = ranged(seq, 1, MAX_SEQ)?;
    let weight = ranged(weight, 1, u64::from(MAX_WEIGHT))? as u32;
    Ok(Effect::WeightHeld {
        origin,
        edge: EdgeId(edge),
        seq,
        weight,
    })
}

#[tactic(auto, unfolding(crate::specs::EffectTable::read_form))]
fn ended(src: &[u8], dst: &[u8]) -> Result<Effect, LineRefused>
    ensures { Reads result (read_form forms.Ended (codes "ended" ∷ src.now ∷ dst.now ∷ [])) }
{
    let src = node(src)?;
    let dst = node(dst)?;
    Ok(Effect::Ended(Flow { src, dst }))
}

#[tactic(auto, unfolding(crate::specs::EffectTable::read_form))]
fn kended(src: &[u8], dst: &[u8]) -> Result<Effect, LineRefused>
    ensures { Reads result (read_form forms.Kended (codes "kended" ∷ src.now ∷ dst.now ∷ [])) }
{
    let src = node(src)?;
    let dst = node(dst)?;
    Ok(Effect::Kended(Flow { src, dst }))
}

#[tactic(auto, unfolding(crate::specs::EffectTable::read_form))]
fn version(version: &[u8]) -> Result<Effect, LineRefused>
    ensures { Reads result (read_form forms.Version (codes "version" ∷ version.now ∷ [])) }
{
    let version = ranged(version, 0, u64::from(u32::MAX))? as u32;
    Ok(Effect::Version { version })
}
