// A line between the first and the end line, read from its words.
ghost use Rattle.std.specs.Prelude.{◌≡◌, [], ◌∷◌, codes, map};
ghost use Rattle.sp_base.specs.Refusals.{Gives};
ghost use Rattle.sp_base.specs.declared.limits.TheConstants.{MAX_NODES_2};
ghost use Rattle.sp_lines.specs.Answers.{Reads};
ghost use Rattle.sp_lines.specs.Cells.{bytes_at, number_at, tested_at};
ghost use Rattle.sp_outside.specs.declared.wire.TheConstants.{DATAGRAM_BYTES};
ghost use Rattle.sp_recording.specs.LineTable.{MAX_PORT, is_above, is_neighbour, read_form, read_line};
ghost use Rattle.sp_recording.specs.LineTable as forms;

use crate::{Digest, Line};
use sp_base::{Bytes, MAX_NODES_2, NodeId};
use sp_lines::{Fault, LineRefused, bytes, digest, named, ranged};
use sp_outside::DATAGRAM_BYTES;
use std::alloc::Global;

/// What a line is read with: memory, the number of indexes in all, the neighbours, and the bound that is held before it.
#[derive(Clone, Copy)]
pub struct LineOf<'a> {
    pub alloc: Global,
    pub total: u64,
    pub neighbours: &'a [NodeId],
    pub held: u64,
}

/// The line of these words, or the first fault.
pub fn read_line(at: &LineOf<'_>, words: &[&[u8]]) -> Result<Line, LineRefused>
    ensures { Reads result (read_line at.now.total at.now.neighbours.now at.now.held (map (λ w. w.now) words.now)) }
{
    match words {
        [name, a] => two(at, name, a),
        [name, a, b] => three(at, name, a, b),
        [name, a, b, c] => four(at, name, a, b, c),
        _ => Err(LineRefused::Bad(Fault::Form)),
    }
}

fn two(at: &LineOf<'_>, name: &[u8], a: &[u8]) -> Result<Line, LineRefused>
    ensures { Reads result (read_line at.now.total at.now.neighbours.now at.now.held (name.now ∷ a.now ∷ [])) }
{
    if named(name, b"reserve") {
        return reserve(at, a);
    }
    if named(name, b"stray") {
        return stray(at, a);
    }
    Err(LineRefused::Bad(Fault::Form))
}

fn three(at: &LineOf<'_>, name: &[u8], a: &[u8], b: &[u8]) -> Result<Line, LineRefused>
    ensures { Reads result (read_line at.now.total at.now.neighbours.now at.now.held (name.now ∷ a.now ∷ b.now ∷ [])) }
{
    if named(name, b"tick") {
        return tick(at, a, b);
    }
    if named(name, b"poll") {
        return poll(at, a, b);
    }
    Err(LineRefused::Bad(Fault::Form))
}

fn four(at: &LineOf<'_>, name: &[u8], a: &[u8], b: &[u8], c: &[u8]) -> Result<Line, LineRefused>
    ensures { Reads result (read_line at.now.total at.now.neighbours.now at.now.held (name.now ∷ a.now ∷ b.now ∷ c.now ∷ [])) }
{
    if named(name, b"overlay") {
        return overlay(at, a, b, c);
    }
    if named(name, b"client") {
        return client(at, a, b, c);
    }
    Err(LineRefused::Bad(Fault::Form))
}

// ---- places

#[tactic(auto, unfolding(sp_lines::specs::Cells::tested_at))]
fn reserved(total: u64, held: u64, word: &[u8]) -> Result<u64, Fault>
    ensures { Gives (λ n. n) result (tested_at 1 total (is_above held) word.now) }
{
    let upto = ranged(word, 1, total)?;
    if upto <= held {
        return Err(Fault::Range);
    }
    Ok(upto)
}

fn port(word: &[u8]) -> Result<u16, Fault>
    ensures { Gives (λ n. n) result (number_at 0 MAX_PORT word.now) }
{
    let n = ranged(word, 0, u64::from(u16::MAX))?;
    Ok(n as u16)
}

/// Whether this is the number of a neighbour.
fn is_neighbour(neighbours: &[NodeId], n: u64) -> bool
    ensures { result ≡ is_neighbour neighbours.now n }
{
    neighbours.iter().any(|id| u64::from(id.0) == n)
}

#[tactic(auto, unfolding(sp_lines::specs::Cells::tested_at))]
fn neighbour(neighbours: &[NodeId], word: &[u8]) -> Result<NodeId, Fault>
    ensures { Gives (λ id. id.0) result (tested_at 1 MAX_NODES_2 (is_neighbour neighbours.now) word.now) }
{
    let n = ranged(word, 1, u64::from(MAX_NODES_2))?;
    if !is_neighbour(neighbours, n) {
        return Err(Fault::Range);
    }
    Ok(NodeId(n as u8))
}

fn datagram(alloc: Global, word: &[u8]) -> Result<Bytes, LineRefused>
    ensures { Reads result (bytes_at 0 DATAGRAM_BYTES word.now) }
{
    bytes(alloc, word, 0, DATAGRAM_BYTES)
}

// ---- rows

#[tactic(auto, unfolding(crate::specs::LineTable::read_form))]
fn reserve(at: &LineOf<'_>, upto: &[u8]) -> Result<Line, LineRefused>
    ensures { Reads result (read_form at.now.total at.now.neighbours.now at.now.held forms.Reserve (codes "reserve" ∷ upto.now ∷ [])) }
{
    let upto = reserved(at.total, at.held, upto)?;
    Ok(Line::Reserve { upto })
}

#[tactic(auto, unfolding(crate::specs::LineTable::read_form))]
fn stray(at: &LineOf<'_>, from: &[u8]) -> Result<Line, LineRefused>
    ensures { Reads result (read_form at.now.total at.now.neighbours.now at.now.held forms.Stray (codes "stray" ∷ from.now ∷ [])) }
{
    let port = port(from)?;
    Ok(Line::Stray { port })
}

#[tactic(auto, unfolding(crate::specs::LineTable::read_form))]
fn tick(at: &LineOf<'_>, now: &[u8], answered: &[u8]) -> Result<Line, LineRefused>
    ensures { Reads result (read_form at.now.total at.now.neighbours.now at.now.held forms.Tick (codes "tick" ∷ now.now ∷ answered.now ∷ [])) }
{
    let now = ranged(now, 0, u64::MAX)?;
    let digest = Digest(digest(at.alloc, answered)?);
    Ok(Line::Tick { now, digest })
}

#[tactic(auto, unfolding(crate::specs::LineTable::read_form))]
fn poll(at: &LineOf<'_>, node: &[u8], frame: &[u8]) -> Result<Line, LineRefused>
    ensures { Reads result (read_form at.now.total at.now.neighbours.now at.now.held forms.Poll (codes "poll" ∷ node.now ∷ frame.now ∷ [])) }
{
    let node = neighbour(at.neighbours, node)?;
    let digest = Digest(digest(at.alloc, frame)?);
    Ok(Line::Poll { node, digest })
}

#[tactic(auto, unfolding(crate::specs::LineTable::read_form))]
fn overlay(at: &LineOf<'_>, node: &[u8], came: &[u8], answered: &[u8]) -> Result<Line, LineRefused>
    ensures { Reads result (read_form at.now.total at.now.neighbours.now at.now.held forms.Overlay
        (codes "overlay" ∷ node.now ∷ came.now ∷ answered.now ∷ [])) }
{
    let node = neighbour(at.neighbours, node)?;
    let bytes = datagram(at.alloc, came)?;
    let digest = Digest(digest(at.alloc, answered)?);
    Ok(Line::Overlay {
        node,
        bytes,
        digest,
    })
}

#[tactic(auto, unfolding(crate::specs::LineTable::read_form))]
fn client(at: &LineOf<'_>, from: &[u8], came: &[u8], reply: &[u8]) -> Result<Line, LineRefused>
    ensures { Reads result (read_form at.now.total at.now.neighbours.now at.now.held forms.Client
        (codes "client" ∷ from.now ∷ came.now ∷ reply.now ∷ [])) }
{
    let port = port(from)?;
    let bytes = datagram(at.alloc, came)?;
    let digest = Digest(digest(at.alloc, reply)?);
    Ok(Line::Client {
        port,
        bytes,
        digest,
    })
}
