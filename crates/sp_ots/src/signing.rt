// Signing: the randomizer, and each chain up to the digit of the message's hash (RFC 8554, section 4.5).
ghost use Rattle.std.specs.Prelude.{◌≡◌, ◌+◌, ◌*◌, ◌++◌, length};
ghost use Rattle.std.specs.List.{concat};
ghost use Rattle.sp_ots.specs.Parameters.{chain_count, signature_len, typecode};
ghost use Rattle.sp_ots.specs.Strings.{u32str};
ghost use Rattle.sp_ots.specs.Keys.{public_key};
ghost use Rattle.sp_ots.specs.Signature.{randomizer, signature, signed_elements};
ghost use Rattle.sp_ots.specs.Candidate.{IsValid};

use crate::OtsParam;
use crate::chains::run_chains;
use crate::digits::digits;
use crate::hashes::{element_message, message_hash};
use crate::keys::{SEED_STEP, private_starts};
use crate::param::MOST_CHAINS;
use sha2::{Digest, Sha256};

/// What stands in place of a chain's number where the seed gives the randomizer. No chain has it.
const RANDOMIZER: u16 = 0xfffd;

/// Writes the signature of a message by leaf q into `out`, which has `sig_len` bytes (RFC 8554, section 4.5).
///
/// The seed gives the randomizer too, so the same call gives the same bytes. A leaf that signs two
/// messages is no longer safe.
#[tactic(auto, unfolding(crate::specs::Signature::signature))]
pub fn sign(param: OtsParam, id: &[u8; 16], q: u32, seed: &[u8; 32], msg: &[u8], out: &mut [u8])
    requires { length out.old ≡ signature_len param }
    ensures signature { out.new ≡ signature param id.now q seed.now msg.now }
    ensures valid { IsValid param id.now q (public_key param id.now q seed.now) msg.now out.new }
{
    let randomizer = randomizer(id, q, seed);
    let hash = message_hash(id, q, &randomizer, msg);
    let mut elements = [[0u8; 32]; MOST_CHAINS];
    let signed = &mut elements[..param.chain_count()];
    signed_elements(param, id, q, seed, &hash, signed);
    join(param, &randomizer, signed, out);
}

/// Runs every chain from its private start to its digit of the hash.
fn signed_elements(
    param: OtsParam,
    id: &[u8; 16],
    q: u32,
    seed: &[u8; 32],
    hash: &[u8; 32],
    elements: &mut [[u8; 32]],
)
    requires { length elements.old ≡ chain_count param }
    ensures { elements.new ≡ signed_elements param id.now q seed.now hash.now }
{
    let count = param.chain_count();
    let from = [0u8; MOST_CHAINS];
    let to = digits(param, hash);
    private_starts(id, q, seed, elements);
    run_chains(id, q, &from[..count], &to[..count], elements);
}

/// Writes the parts of a signature one after the other.
fn join(param: OtsParam, randomizer: &[u8; 32], elements: &[[u8; 32]], out: &mut [u8])
    requires { length out.old ≡ 36 + 32 * length elements.now }
    ensures { out.new ≡ u32str (typecode param) ++ randomizer.now ++ concat elements.now }
{
    out[..4].copy_from_slice(&param.typecode().to_be_bytes());
    out[4..36].copy_from_slice(randomizer);
    out[36..].copy_from_slice(elements.as_flattened());
}

/// The randomizer that the seed gives.
#[tactic(auto, unfolding(crate::specs::Signature::randomizer))]
fn randomizer(id: &[u8; 16], q: u32, seed: &[u8; 32]) -> [u8; 32]
    ensures { result ≡ randomizer id.now q seed.now }
{
    Sha256::digest(&element_message(id, q, RANDOMIZER, SEED_STEP, seed))
}
