// Checking a signature of one or two levels (RFC 8554, section 6.3).
ghost use Rattle.std.specs.Prelude.{◌↔◌, IsTrue};
ghost use Rattle.sp_hss.specs.Validity.{IsSignedBelow, IsValid};

use sp_lms::{Claim, PublicKey, u32_at, verify_both};

/// The bytes of the public key of one tree.
pub(crate) const TREE_KEY_LEN: usize = 56;

/// Whether the signature is valid for the message under a public key of one or two levels (RFC 8554, section 6.3).
///
/// False for every key and every signature that are of another form, whatever their length. A lower tree may
/// have any parameter set.
pub fn verify(public: &[u8], msg: &[u8], sig: &[u8]) -> bool
    ensures { IsTrue result ↔ IsValid public.now msg.now sig.now }
{
    if public.len() < 4 || sig.len() < 4 {
        return false;
    }
    match (u32_at(public, 0), u32_at(sig, 0)) {
        (1, 0) => sp_lms::verify(&public[4..], msg, &sig[4..]),
        (2, 1) => verify_below(&public[4..], msg, &sig[4..]),
        _ => false,
    }
}

/// Whether the bytes are a signature of a lower tree's key, that key, and its signature of the message.
fn verify_below(upper_key: &[u8], msg: &[u8], sig: &[u8]) -> bool
    ensures { IsTrue result ↔ IsSignedBelow upper_key.now msg.now sig.now }
{
    let Some(upper) = PublicKey::read(upper_key) else {
        return false;
    };
    let place = upper.sig_len();
    if sig.len() < place + TREE_KEY_LEN {
        return false;
    }
    let lower_key = &sig[place..place + TREE_KEY_LEN];
    let Some(lower) = PublicKey::read(lower_key) else {
        return false;
    };
    let first = Claim {
        key: &upper,
        msg: lower_key,
        sig: &sig[..place],
    };
    let second = Claim {
        key: &lower,
        msg,
        sig: &sig[place + TREE_KEY_LEN..],
    };
    verify_both(&first, &second)
}
