// Checking: each chain from its digit to its end, and the key that the ends give (RFC 8554, section 4.6).
ghost use Rattle.std.specs.Prelude.{◌≡◌, ◌↔◌, IfOk, IsTrue, length};
ghost use Rattle.sp_ots.specs.Parameters.{chain_count, typecode};
ghost use Rattle.sp_ots.specs.Strings.{u32str};
ghost use Rattle.sp_ots.specs.Candidate.{HasLength, HasTypecode, IsValid, candidate_key};

use crate::chains::run_chains;
use crate::digits::digits;
use crate::hashes::{key_of_ends, message_hash};
use crate::param::MOST_CHAINS;
use crate::{OtsParam, OtsRefused, sig_len};

/// The one key under which the signature is a right one of the message by leaf q (RFC 8554, section 4.6).
///
/// The signature is valid exactly where this is the public key of the leaf.
pub fn candidate(
    param: OtsParam,
    id: &[u8; 16],
    q: u32,
    msg: &[u8],
    sig: &[u8],
) -> Result<[u8; 32], OtsRefused>
    ensures key { IfOk result (λ key. IsValid param id.now q key msg.now sig.now) }

    // The length is judged first.
    ensures length { (result ≡ Err OtsRefused.Length) ↔ (¬ HasLength param sig.now) }
    ensures typecode { (result ≡ Err OtsRefused.Typecode)
        ↔ (HasLength param sig.now × ¬ HasTypecode param sig.now) }
{
    if sig.len() != sig_len(param) {
        return Err(OtsRefused::Length);
    }
    if !has_typecode(param, &sig[..4]) {
        return Err(OtsRefused::Typecode);
    }
    let mut elements = [[0u8; 32]; MOST_CHAINS];
    let room = &mut elements[..param.chain_count()];
    Ok(candidate_key(param, id, q, msg, sig, room))
}

/// Whether the bytes are the typecode of the parameter set.
#[tactic(auto, unfolding(crate::specs::Strings::u32str))]
pub(crate) fn has_typecode(param: OtsParam, bytes: &[u8]) -> bool
    ensures { IsTrue result ↔ (bytes.now ≡ u32str (typecode param)) }
{
    bytes == param.typecode().to_be_bytes().as_slice()
}

/// The key that a signature of the right length gives, with room for an element of each chain.
fn candidate_key(
    param: OtsParam,
    id: &[u8; 16],
    q: u32,
    msg: &[u8],
    sig: &[u8],
    elements: &mut [[u8; 32]],
) -> [u8; 32]
    requires whole { HasLength param sig.now }
    requires room { length elements.old ≡ chain_count param }
    ensures { result ≡ candidate_key param id.now q msg.now sig.now }
{
    let count = param.chain_count();
    let from = digits(param, &message_hash(id, q, &sig[4..36], msg));
    let to = [param.last_step(); MOST_CHAINS];
    elements.copy_from_slice(sig[36..].as_chunks().0);
    run_chains(id, q, &from[..count], &to[..count], elements);
    key_of_ends(id, q, elements)
}
