// Checking two signatures at once: the chains of both are run in one run, so that no lane is idle between them.
ghost use Rattle.std.specs.Prelude.{◌≡◌, ℕ, ◌+◌, ◌<◌, ◌≤◌, ◌↔◌, [], IfSome, IsNone, IsTrue, length, slice_index, slice_index_or};
ghost use Rattle.sp_ots.specs.Parameters.{chain_count, last_step};
ghost use Rattle.sp_ots.specs.Digits.{digit};
ghost use Rattle.sp_ots.specs.Signature.{message_hash};
ghost use Rattle.sp_ots.specs.Form.{HasForm};
ghost use Rattle.sp_ots.specs.Candidate.{HasLength, IsValid, candidate_key, element_of, randomizer_of};

use crate::chains::run_both;
use crate::check::has_typecode;
use crate::digits::digits;
use crate::hashes::{key_of_ends, message_hash};
use crate::param::MOST_CHAINS;
use crate::two_leaves::{Leaf, TwoLeaves};
use crate::{OtsParam, sig_len};

/// A signature, and what it is to be a signature of.
#[derive(Clone, Copy, Debug)]
pub struct Claim<'a> {
    pub param: OtsParam,
    /// The id of the tree.
    pub id: &'a [u8; 16],
    /// The number of the leaf.
    pub q: u32,
    pub msg: &'a [u8],
    pub sig: &'a [u8],
}

/// The most chains that two signatures have.
const ROOM: usize = 2 * MOST_CHAINS;

/// For each of two signatures the one key under which it is a right one (RFC 8554, section 4.6), as `candidate` gives it.
///
/// The two may have different parameter sets; their chains are run in one run. None exactly where one of the two has another length or
/// another typecode than its parameter set says, and then no chain is run.
pub fn candidates(first: &Claim<'_>, second: &Claim<'_>) -> Option<([u8; 32], [u8; 32])>
    ensures first { IfSome result (λ keys. IsValid first.now.param first.now.id.now first.now.q keys.0 first.now.msg.now first.now.sig.now) }
    ensures second { IfSome result (λ keys. IsValid second.now.param second.now.id.now second.now.q keys.1 second.now.msg.now second.now.sig.now) }
    ensures none { IsNone result ↔ (¬ (HasForm first.now.param first.now.sig.now × HasForm second.now.param second.now.sig.now)) }
{
    if !first.has_form() || !second.has_form() {
        return None;
    }
    let mut elements = [[0u8; 32]; ROOM];
    let count = first.param.chain_count() + second.param.chain_count();
    Some(candidate_keys(first, second, &mut elements[..count]))
}

/// The keys that two signatures of the right form give, with room for an element of each chain of the two.
fn candidate_keys(
    first: &Claim<'_>,
    second: &Claim<'_>,
    elements: &mut [[u8; 32]],
) -> ([u8; 32], [u8; 32])
    requires first { HasLength first.now.param first.now.sig.now }
    requires second { HasLength second.now.param second.now.sig.now }
    requires room { length elements.old ≡ chain_count first.now.param + chain_count second.now.param }
    ensures first { result.0 ≡ candidate_key first.now.param first.now.id.now first.now.q first.now.msg.now first.now.sig.now }
    ensures second { result.1 ≡ candidate_key second.now.param second.now.id.now second.now.q second.now.msg.now second.now.sig.now }
{
    let count = elements.len();
    let split = first.param.chain_count();
    let mut from = [0u8; ROOM];
    let mut to = [0u8; ROOM];
    first.lay(0, &mut from, &mut to, elements);
    second.lay(split, &mut from, &mut to, elements);
    let leaves = TwoLeaves {
        first: Leaf {
            id: *first.id,
            q: first.q,
        },
        second: Leaf {
            id: *second.id,
            q: second.q,
        },
        split,
    };
    run_both(&leaves, &from[..count], &to[..count], elements);
    (
        key_of_ends(first.id, first.q, &elements[..split]),
        key_of_ends(second.id, second.q, &elements[split..]),
    )
}

impl Claim<'_> {
    /// Whether the signature has the length and the typecode of its parameter set.
    fn has_form(&self) -> bool
        ensures { IsTrue result ↔ HasForm self.now.param self.now.sig.now }
    {
        self.sig.len() == sig_len(self.param) && has_typecode(self.param, &self.sig[..4])
    }

    /// Lays down, from a place on, at which step each chain of the signature begins, at which it ends, and its element.
    fn lay(
        &self,
        place: usize,
        from: &mut [u8; ROOM],
        to: &mut [u8; ROOM],
        elements: &mut [[u8; 32]],
    )
        requires whole { HasLength self.now.param self.now.sig.now }
        requires few { place + chain_count self.now.param ≤ ROOM }
        requires room { place + chain_count self.now.param ≤ length elements.old }
        ensures long { length elements.new ≡ length elements.old }
        ensures from_before { (i : ℕ) → i < place → slice_index from.new i ≡ slice_index from.old i }
        ensures from { (i : ℕ) → i < chain_count self.now.param → slice_index from.new (place + i)
            ≡ digit self.now.param (message_hash self.now.id.now self.now.q (randomizer_of self.now.sig.now) self.now.msg.now) i }
        ensures to_before { (i : ℕ) → i < place → slice_index to.new i ≡ slice_index to.old i }
        ensures to { (i : ℕ) → i < chain_count self.now.param → slice_index to.new (place + i) ≡ last_step self.now.param }
        ensures elements_before { (i : ℕ) → i < place → slice_index_or elements.new i [] ≡ slice_index_or elements.old i [] }
        ensures elements { (i : ℕ) → i < chain_count self.now.param → slice_index_or elements.new (place + i) [] ≡ element_of self.now.sig.now i }
    {
        let count = self.param.chain_count();
        let hash = message_hash(self.id, self.q, &self.sig[4..36], self.msg);
        from[place..place + count].copy_from_slice(&digits(self.param, &hash)[..count]);
        to[place..place + count].copy_from_slice(&[self.param.last_step(); MOST_CHAINS][..count]);
        elements[place..place + count].copy_from_slice(self.sig[36..].as_chunks().0);
    }
}
