// The key pair that a seed gives for a leaf (RFC 8554, section 4.3 and appendix A).
ghost use Rattle.std.specs.Prelude.{◌≡◌, ◌+◌, ◌≤◌, ◌^◌, length, map};
ghost use Rattle.std.specs.List.{range_with_len};
ghost use Rattle.sp_ots.specs.Lanes.{lanes};
ghost use Rattle.sp_ots.specs.Parameters.{chain_count};
ghost use Rattle.sp_ots.specs.Keys.{private_start, public_key};

use crate::chains::run_chains;
use crate::hashes::{element_message, key_of_ends};
use crate::param::MOST_CHAINS;
use crate::{LANES, OtsParam, digests};
use sha2::{Digest, Sha256};

/// What stands in place of a step where a seed is hashed (RFC 8554, appendix A).
pub(crate) const SEED_STEP: u8 = 0xff;

/// The public key K of leaf q of the tree with this id (RFC 8554, section 4.3), which the seed gives
/// (appendix A).
pub fn public(param: OtsParam, id: &[u8; 16], q: u32, seed: &[u8; 32]) -> [u8; 32]
    ensures { result ≡ public_key param id.now q seed.now }
{
    let mut elements = [[0u8; 32]; MOST_CHAINS];
    public_key(param, id, q, seed, &mut elements[..param.chain_count()])
}

/// The public key, with room for an element of each chain.
fn public_key(
    param: OtsParam,
    id: &[u8; 16],
    q: u32,
    seed: &[u8; 32],
    elements: &mut [[u8; 32]],
) -> [u8; 32]
    requires { length elements.old ≡ chain_count param }
    ensures { result ≡ public_key param id.now q seed.now }
{
    let count = param.chain_count();
    let from = [0u8; MOST_CHAINS];
    let to = [param.last_step(); MOST_CHAINS];
    private_starts(id, q, seed, elements);
    run_chains(id, q, &from[..count], &to[..count], elements);
    key_of_ends(id, q, elements)
}

/// Writes the private start of each chain, four at a time.
pub fn private_starts(id: &[u8; 16], q: u32, seed: &[u8; 32], starts: &mut [[u8; 32]])
    requires { length starts.old ≤ 2 ^ 16 }
    ensures { starts.new ≡ map (private_start id.now q seed.now) (range_with_len 0 (length starts.old)) }
{
    'groups: for g in 0..starts.len().div_ceil(LANES) {
        let first = LANES * g;
        let end = starts.len().min(first + LANES);
        let made = starts_from(id, q, seed, first);
        starts[first..end].copy_from_slice(&made[..end - first]);
    }
}

/// The private starts of the chains from `first` on, one in each lane.
fn starts_from(id: &[u8; 16], q: u32, seed: &[u8; 32], first: usize) -> [[u8; 32]; LANES]
    requires { first + lanes ≤ 2 ^ 16 }
    ensures { result ≡ map (private_start id.now q seed.now) (range_with_len first lanes) }
{
    let mut messages = [[0u8; 55]; LANES];
    'lanes: for k in 0..LANES {
        messages[k] = element_message(id, q, (first + k) as u16, SEED_STEP, seed);
    }
    digests(&messages)
}

/// The same as `private_starts`, one chain after another: the plain form, which tests run beside it.
pub fn private_starts_one_by_one(id: &[u8; 16], q: u32, seed: &[u8; 32], starts: &mut [[u8; 32]])
    requires { length starts.old ≤ 2 ^ 16 }
    ensures { starts.new ≡ map (private_start id.now q seed.now) (range_with_len 0 (length starts.old)) }
{
    'chains: for i in 0..starts.len() {
        starts[i] = Sha256::digest(&element_message(id, q, i as u16, SEED_STEP, seed));
    }
}
