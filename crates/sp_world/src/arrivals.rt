// A datagram arrives: what became of it is told, or something of it is forged.
ghost use Rattle.std.specs.Prelude.{◌≡◌, ◌≤◌, [], IfOk, OnErr, length, vec_capacity};
ghost use Rattle.sp_forgery.specs.declared.judging.TheConstants.{MAX_MESSAGE_BYTES};
ghost use Rattle.sp_runs.specs.Scenarios.{setting_of};
ghost use Rattle.sp_world.specs.Arrivals.{Arrives, CanHear};
ghost use Rattle.sp_frame.specs.declared.sections.TheConstants.{MOST_OBJECTS};

use crate::acts::Done;
use sp_base::{Memory, NodeId};
use sp_forgery::{Known, MAX_MESSAGE_BYTES, document_of, judge};
use sp_frame::MOST_OBJECTS;
use sp_journal::ItemWord;
use sp_world_steps::{Directions, Member, arrived, forget, hear};
use std::alloc::Global;

/// What the world needs of memory after a node took a datagram: for the words of its entry, and for what may be forged of it, to keep and to tell.
#[derive(Debug, Drop)]
struct Room {
    words: Vec<ItemWord>,
    kept: Vec<u8>,
    told: Vec<u8>,
}

impl Room {
    /// For a datagram of this length.
    fn new(alloc: Global, len: usize) -> Result<Room, Memory>
        ensures words { IfOk result (λ room. (room.words.items ≡ []) × (MOST_OBJECTS ≤ vec_capacity room.words)) }
        ensures kept { IfOk result (λ room. (room.kept.items ≡ []) × (MAX_MESSAGE_BYTES ≤ vec_capacity room.kept) × (len ≤ vec_capacity room.kept)) }
        ensures told { IfOk result (λ room. (room.told.items ≡ []) × (MAX_MESSAGE_BYTES ≤ vec_capacity room.told) × (len ≤ vec_capacity room.told)) }
    {
        let most = MAX_MESSAGE_BYTES.max(len);
        Ok(Room {
            words: Vec::with_capacity(alloc, MOST_OBJECTS)?,
            kept: Vec::with_capacity(alloc, most)?,
            told: Vec::with_capacity(alloc, most)?,
        })
    }
}

/// Bytes arrive at `v` from the address of `u`. Where something of them is forged, `v` is gone. All memory is taken before `v` takes them: so where
/// there is none, it is as before.
#[tactic(auto, using(crate::proofs::Arriving::is_heard, crate::proofs::Arriving::is_found))]
pub fn arrive(
    alloc: Global,
    known: &Known<'_>,
    nodes: &mut Vec<Member>,
    directions: &Directions,
    u: NodeId,
    v: NodeId,
    bytes: &[u8],
) -> Result<Done, Memory>
    requires even { length known.now.events.now ≡ length known.now.journal.now }
    requires can { CanHear known.now.scenario.now known.now.signature_len nodes.old.items v u }
    ensures arrives { IfOk result (λ done. Arrives known.now.scenario.now known.now.events.now known.now.journal.now
        nodes.old.items directions.now u v bytes.now done nodes.new.items) }
    ensures as_before { OnErr result (nodes.new.items ≡ nodes.old.items) }
{
    let Room { words, kept, told } = Room::new(alloc, bytes.len())?;
    let brought = document_of(alloc, known, bytes)?;
    let step = hear(alloc, nodes, u, v, bytes)?;
    match judge(known, directions, u, v, bytes, &brought, &step) {
        Some(found) => {
            let (what, told) = (found.copied(kept), found.copied(told));
            forget(nodes, v);
            Ok(Done::Forged { what, told })
        }
        None => Ok(Done::Told(arrived(words, step))),
    }
}
