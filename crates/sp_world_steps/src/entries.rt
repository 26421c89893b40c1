// The entries of a journal of a run: a frame that was made, and an arrival.
ghost use Rattle.std.specs.Prelude.{◌≡◌, ◌≤◌, ◌<◌, ◌^◌, [], length, vec_capacity};
ghost use Rattle.sp_rules.specs.Steps.{Frame, replied};
ghost use Rattle.sp_world_steps.specs.Gave.{Tells, taken};
ghost use Rattle.sp_base.specs.declared.id.NodeId.{NodeId};
ghost use Rattle.sp_rules.specs.Node.{NodeState};
ghost use Rattle.std.specs.Prelude.{ℕ, List};

use sha2::{Digest, Sha256};
use sp_journal::{Entry, ItemWord, Reply};
use sp_node_words::{entry_in, quiet};
use sp_rules::{Step, Taken};
use std::alloc::Global;

/// The entry of a frame of this number. It takes no memory.
pub fn frame(alloc: Global, number: u32, bytes: &[u8]) -> Entry
    requires { length bytes.now < 2 ^ 32 }
    ensures { Tells number (replied (Frame bytes.now)) result }
{
    quiet(
        alloc,
        Reply::Frame {
            number,
            length: bytes.len() as u32,
            digest: Sha256::digest(bytes),
        },
    )
}

/// The entry of an arrival that was answered so. Its words are written into an empty vector that has room for those of any frame, so it takes no
/// memory.
pub fn arrived(words: Vec<ItemWord>, step: Step<Taken>) -> Entry
    requires empty { words.items ≡ [] }
    requires room { length step.reply.items ≤ vec_capacity words }
    ensures { (n : NodeState) (u : NodeId) (bytes : List ℕ) → Tells 0 (taken n u bytes step) result }
{
    entry_in(words, step)
}
