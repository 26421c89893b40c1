// Checking a signature under the public key of a tree (RFC 8554, section 5.4.2).
ghost use Rattle.std.specs.Prelude.{◌≡◌, ◌++◌, ◌↔◌, IfSome, IsNone, IsTrue, length};
ghost use Rattle.sp_ots.specs.Parameters as one_time;
ghost use Rattle.sp_ots.specs.Strings.{u32str};
ghost use Rattle.sp_lms.specs.Parameters.{signature_len, typecode};
ghost use Rattle.sp_lms.specs.PublicKey.{IsReadFrom};
ghost use Rattle.sp_lms.specs.Validity.{HasTypes, IsValid, IsValidUnder, leaf_of, one_time_of};
ghost use Rattle.sp_lms.specs.Form.{HasForm, root_above};

use crate::bytes::u32_at;
use crate::hashes::leaf_hash;
use crate::path::ancestor;
use crate::{LmsParam, sig_len};
use sp_ots::OtsParam;

/// The public key of one tree.
#[derive(Clone, Copy, Debug)]
pub struct PublicKey {
    pub lms: LmsParam,
    pub ots: OtsParam,
    /// The tree's id, I.
    pub id: [u8; 16],
    /// The root of the tree, T[1].
    pub root: [u8; 32],
}

/// Whether the signature is valid for the message under the public key of one tree (RFC 8554, section 5.4.2).
///
/// False for every key and every signature that are of another form, whatever their length.
pub fn verify(public: &[u8], msg: &[u8], sig: &[u8]) -> bool
    ensures { IsTrue result ↔ IsValid public.now msg.now sig.now }
{
    match PublicKey::read(public) {
        Some(key) => key.verify(msg, sig),
        None => false,
    }
}

impl PublicKey {
    /// The key that 56 bytes spell. None exactly where there are more or fewer, or where one of the typecodes isn't
    /// one of RFC 8554 with SHA-256.
    pub fn read(public: &[u8]) -> Option<PublicKey>
        ensures some { IfSome result (λ key. IsReadFrom public.now key) }
        ensures none { IsNone result → (lms : LmsParam) (ots : OtsParam) → ¬ HasTypes lms ots public.now }
    {
        if public.len() != 56 {
            return None;
        }
        let lms = LmsParam::from_typecode(u32_at(public, 0))?;
        let ots = OtsParam::from_typecode(u32_at(public, 4))?;
        let mut id = [0u8; 16];
        id.copy_from_slice(&public[8..24]);
        let mut root = [0u8; 32];
        root.copy_from_slice(&public[24..]);
        Some(PublicKey { lms, ots, id, root })
    }

    /// The bytes of a signature under this key.
    pub fn sig_len(&self) -> usize
        ensures { result ≡ signature_len self.now.lms self.now.ots }
    {
        sig_len(self.lms, self.ots)
    }

    /// Whether the signature is valid for the message.
    pub fn verify(&self, msg: &[u8], sig: &[u8]) -> bool
        ensures { IsTrue result ↔ IsValidUnder self.now.lms self.now.ots self.now.id self.now.root msg.now sig.now }
    {
        let Some(leaf) = self.leaf_of(sig) else {
            return false;
        };
        match sp_ots::candidate(self.ots, &self.id, leaf, msg, self.one_time_of(sig)) {
            Ok(key) => self.is_above(leaf, &key, sig),
            Err(_) => false,
        }
    }

    /// The number of the leaf that made a signature. None exactly where the signature has another length, the number of no leaf, or
    /// another typecode of the tree.
    pub(crate) fn leaf_of(&self, sig: &[u8]) -> Option<u32>
        ensures some { IfSome result (λ leaf. (leaf ≡ leaf_of sig.now) × HasForm self.now.lms self.now.ots sig.now) }
        ensures none { IsNone result → ¬ HasForm self.now.lms self.now.ots sig.now }
    {
        if sig.len() != self.sig_len() {
            return None;
        }
        let leaf = u32_at(sig, 0);
        let behind = 4 + sp_ots::sig_len(self.ots);
        if leaf >= self.lms.leaf_count() || u32_at(sig, behind) != self.lms.typecode() {
            return None;
        }
        Some(leaf)
    }

    /// The one-time signature in a signature.
    pub(crate) fn one_time_of<'a>(&self, sig: &'a [u8]) -> &'a [u8]
        requires { length sig.now ≡ signature_len self.now.lms self.now.ots }
        ensures { result.now ≡ one_time_of self.now.ots sig.now }
    {
        &sig[4..4 + sp_ots::sig_len(self.ots)]
    }

    /// Whether the path of a signature leads to the root from the leaf with this one-time public key.
    pub(crate) fn is_above(&self, leaf: u32, key: &[u8; 32], sig: &[u8]) -> bool
        requires form { HasForm self.now.lms self.now.ots sig.now }
        requires leaf { leaf ≡ leaf_of sig.now }
        ensures { IsTrue result ↔ (self.now.root ≡ root_above self.now.lms self.now.ots self.now.id key.now sig.now) }
    {
        let r = self.lms.leaf_count() + leaf;
        let siblings = sig[8 + sp_ots::sig_len(self.ots)..].as_chunks().0;
        is_same(
            &self.root,
            &ancestor(&self.id, siblings, r, &leaf_hash(&self.id, r, key)),
        )
    }
}

/// The bytes of a public key (RFC 8554, section 5.3).
pub(crate) fn spelled(lms: LmsParam, ots: OtsParam, id: &[u8; 16], root: &[u8; 32]) -> [u8; 56]
    ensures { result ≡ u32str (typecode lms) ++ u32str (one_time.typecode ots) ++ id.now ++ root.now }
{
    let mut public = [0u8; 56];
    public[..4].copy_from_slice(&lms.typecode().to_be_bytes());
    public[4..8].copy_from_slice(&ots.typecode().to_be_bytes());
    public[8..24].copy_from_slice(id);
    public[24..].copy_from_slice(root);
    public
}

fn is_same(a: &[u8; 32], b: &[u8; 32]) -> bool
    ensures { IsTrue result ↔ (a.now ≡ b.now) }
{
    a == b
}
