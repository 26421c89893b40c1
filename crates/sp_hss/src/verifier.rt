// Checking many signatures under one key: the half that signatures by one lower tree share is checked once.
ghost use Rattle.std.specs.Prelude.{◌≡◌, ◌≤◌, ◌++◌, ◌↔◌, IfErr, IfOk, IfSome, IsTrue, length};
ghost use Rattle.sp_hss.specs.Front.{lower_key_of, IsFrontRoom};
ghost use Rattle.sp_hss.specs.Validity.{IsValid};

use crate::HssRefused;
use crate::check::{TREE_KEY_LEN, verify};
use sp_lms::{PublicKey, u32_at};
use std::alloc::Global;
use std::marker::Model;

/// A public key that remembers what the last valid signature under it began with: the lower tree's key, signed by the upper tree.
///
/// A signature that begins with the same bytes is checked in about half the time. A contract sees the bytes of the public key, and
/// not what is remembered: no answer depends on it. All memory is taken by `make`.
#[derive(Drop)]
pub struct Verifier {
    public: Vec<u8>,
    /// Where one is known, the front of the last valid signature. It is empty where the key isn't one of two levels.
    front: Vec<u8>,
    is_known: bool,
}

impl Model for Verifier {
    ghost use Rattle.std.specs.Prelude.{ℕ, List};

    ghost Value = { List ℕ };

    ghost use Rattle.sp_hss.specs.Remembered.{IsRemembered};

    ghost view = { λ v. v.public.items };

    ghost invariant = { IsRemembered };
}

impl Verifier {
    /// A verifier for a public key, which may have one level or two, or be none at all. Nothing is remembered yet.
    ///
    /// Takes memory for the key and, at two levels, for 60 bytes and a signature of the upper tree: 2,408 bytes at height 5 with w = 4.
    pub fn make(alloc: Global, public: &[u8]) -> Result<Verifier, HssRefused>
        ensures ok { IfOk result (λ verifier. verifier ≡ public.now) }
        ensures memory { IfErr result (λ refused. refused ≡ HssRefused.Memory) }
    {
        let Ok(front) = vec![in alloc; 0u8; front_room(public)] else {
            return Err(HssRefused::Memory);
        };
        let Ok(public) = public.to_vec(alloc) else {
            return Err(HssRefused::Memory);
        };
        Ok(Verifier {
            public,
            front,
            is_known: false,
        })
    }

    /// The bytes of the public key.
    pub fn public(&self) -> &[u8]
        ensures { result.now ≡ self.now }
    {
        &self.public
    }

    /// Whether the signature is valid for the message under the public key: the answer of `verify`, whatever is remembered.
    pub fn verify(&mut self, msg: &[u8], sig: &[u8]) -> bool
        ensures answer { IsTrue result ↔ IsValid self.old msg.now sig.now }
        ensures key { self.new ≡ self.old }
    {
        if self.is_known {
            if let Some(lower) = rest(sig, &self.front) {
                return sp_lms::verify(lower_key(&self.front), msg, lower);
            }
        }
        let len = self.front.len();
        let is_valid = verify(&self.public, msg, sig);
        if is_valid && len > 0 {
            self.front.copy_from_slice(&sig[..len]);
            self.is_known = true;
        }
        is_valid
    }
}

/// The bytes of a front under a public key of two levels, and 0 for any other key.
fn front_room(public: &[u8]) -> usize
    ensures { IsFrontRoom public.now result }
{
    if public.len() < 4 || u32_at(public, 0) != 2 {
        return 0;
    }
    match PublicKey::read(&public[4..]) {
        Some(upper) => 4 + upper.sig_len() + TREE_KEY_LEN,
        None => 0,
    }
}

/// The lower tree's key in a front.
fn lower_key(front: &[u8]) -> &[u8]
    requires { 60 ≤ length front.now }
    ensures { result.now ≡ lower_key_of front.now }
{
    &front[front.len() - TREE_KEY_LEN..]
}

/// What stands after the front, if the signature begins with it.
fn rest<'a>(sig: &'a [u8], front: &[u8]) -> Option<&'a [u8]>
    ensures { IfSome result (λ rest. sig.now ≡ front.now ++ rest.now) }
{
    sig.strip_prefix(front)
}
