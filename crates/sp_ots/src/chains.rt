// Chains of elements, each the hash of the one before (RFC 8554, section 4.3): nearly all the work of a
// signature.
ghost use Rattle.std.specs.Prelude.{◌≡◌, ◌<◌, ◌≤◌, ◌^◌, ℕ, length, slice_index};
ghost use Rattle.sp_ots.specs.Chains.{chain_end, chain_ends};
ghost use Rattle.sp_ots.specs.TwoLeaves.{front_in, run_ends};

use crate::hashes::element_message;
use crate::lanes::Lanes;
use crate::two_leaves::{Leaf, TwoLeaves};
use sha2::{Digest, Sha256};

/// Runs each chain from its own step to its own step, in place: element i belongs to chain i.
///
/// A chain whose first step is not below its last one stays. Every signature and key of one leaf is made by this
/// one call, so all the chains are known before the first step is made, and four are hashed at once, the longest first.
pub fn run_chains(id: &[u8; 16], q: u32, from: &[u8], to: &[u8], elements: &mut [[u8; 32]])
    requires numbers { length elements.old ≤ 2 ^ 16 }
    requires from { length from.now ≡ length elements.old }
    requires to { length to.now ≡ length elements.old }
    ensures { elements.new ≡ chain_ends id.now q from.now to.now elements.old }
{
    let leaf = Leaf { id: *id, q };
    let leaves = TwoLeaves {
        first: leaf,
        second: leaf,
        split: elements.len(),
    };
    run_both(&leaves, from, to, elements);
}

/// Runs the chains of two leaves in place, as `run_chains` does those of one.
pub(crate) fn run_both(leaves: &TwoLeaves, from: &[u8], to: &[u8], elements: &mut [[u8; 32]])
    requires numbers { length elements.old ≤ 2 ^ 16 }
    requires from { length from.now ≡ length elements.old }
    requires to { length to.now ≡ length elements.old }
    ensures { elements.new ≡ run_ends (front_in leaves.now) from.now to.now elements.old }
{
    let mut lanes = Lanes::idle(greatest(to));
    lanes.fill(leaves, from, to, elements);
    'rounds: while !lanes.are_idle() {
        lanes.step(to, elements);
        lanes.fill(leaves, from, to, elements);
    }
}

/// The greatest of the numbers, or 0 where there is none.
fn greatest(numbers: &[u8]) -> u8
    ensures { (i : ℕ) → i < length numbers.now → slice_index numbers.now i ≤ result }
{
    let mut most = 0u8;
    'numbers: for number in numbers {
        most = most.max(*number);
    }
    most
}

/// The same as `run_chains`, one chain after another: the plain form, which tests and measures run beside it.
pub fn run_chains_one_by_one(
    id: &[u8; 16],
    q: u32,
    from: &[u8],
    to: &[u8],
    elements: &mut [[u8; 32]],
)
    requires numbers { length elements.old ≤ 2 ^ 16 }
    requires from { length from.now ≡ length elements.old }
    requires to { length to.now ≡ length elements.old }
    ensures { elements.new ≡ chain_ends id.now q from.now to.now elements.old }
{
    'chains: for i in 0..elements.len() {
        elements[i] = run_chain(id, q, i as u16, from[i], to[i], &elements[i]);
    }
}

/// The element of chain i at step `to`, from the one at step `from`.
///
/// The message of 55 bytes is laid out once: a step changes its number and its element.
fn run_chain(id: &[u8; 16], q: u32, i: u16, from: u8, to: u8, element: &[u8; 32]) -> [u8; 32]
    ensures { result ≡ chain_end id.now q i from to element.now }
{
    let mut message = element_message(id, q, i, from, element);
    'steps: for j in from..to {
        message[22] = j;
        let next = Sha256::digest(&message);
        message[23..].copy_from_slice(&next);
    }
    let mut end = [0u8; 32];
    end.copy_from_slice(&message[23..]);
    end
}
