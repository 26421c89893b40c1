// What the proofs of a link are made of: a nonce of each probe, and the digest of the proof before with it.
ghost use Rattle.std.specs.Prelude.{◌≡◌};
ghost use Rattle.sp_measure.specs.Hashed.{hashed};
ghost use Rattle.sp_measure.specs.Proofs.{name_of, nonce, with_nonce};

use sha2::{Digest, Sha256};
use sp_base::NodeId;

/// The nonce of a sender's probe of this number, in its life of this boot.
pub(crate) fn nonce(key: &[u8; 32], me: NodeId, boot: u64, number: u64) -> [u8; 8]
    ensures { result ≡ nonce hashed (record { key = key.now; me = me; boot = boot }) number }
{
    let tag = sp_hmac::tag(key, b"probe", &name(me, boot, number));
    let mut nonce = [0u8; 8];
    nonce.copy_from_slice(&tag[..8]);
    nonce
}

/// What names a probe among all probes over its link.
fn name(me: NodeId, boot: u64, number: u64) -> [u8; 17]
    ensures { result ≡ name_of me boot number }
{
    let mut name = [me.0; 17];
    name[1..9].copy_from_slice(&boot.to_be_bytes());
    name[9..].copy_from_slice(&number.to_be_bytes());
    name
}

/// The proof with one more nonce.
pub(crate) fn with_nonce(proof: &[u8; 32], nonce: &[u8; 8]) -> [u8; 32]
    ensures { result ≡ with_nonce hashed proof.now nonce.now }
{
    let mut hasher = Sha256::new();
    hasher.update(proof);
    hasher.update(nonce);
    hasher.finalize()
}
