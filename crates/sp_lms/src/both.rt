// Checking two signatures at once, each under the public key of its own tree: the chains of both are run in one run.
ghost use Rattle.std.specs.Prelude.{◌≡◌, ◌↔◌, IfSome, IsNone, IsTrue};
ghost use Rattle.sp_lms.specs.Validity.{IsValidUnder, leaf_of, one_time_of};
ghost use Rattle.sp_lms.specs.Form.{HasForm};

use crate::PublicKey;

/// A signature, and what it is to be a signature of.
#[derive(Clone, Copy, Debug)]
pub struct Claim<'a> {
    /// The public key of the tree.
    pub key: &'a PublicKey,
    pub msg: &'a [u8],
    pub sig: &'a [u8],
}

/// Whether each of two signatures is valid for its message under its key (RFC 8554, section 5.4.2).
///
/// The answer of two calls of `PublicKey::verify`, in less time. Where one of the two has another form than those under its key, no chain
/// is run; else the chains of both are run, also where the first signature isn't valid.
pub fn verify_both(first: &Claim<'_>, second: &Claim<'_>) -> bool
    ensures { IsTrue result
        ↔ (IsValidUnder first.now.key.now.lms first.now.key.now.ots first.now.key.now.id first.now.key.now.root first.now.msg.now first.now.sig.now
        × IsValidUnder second.now.key.now.lms second.now.key.now.ots second.now.key.now.id second.now.key.now.root second.now.msg.now second.now.sig.now) }
{
    let (Some(one), Some(other)) = (first.one_time(), second.one_time()) else {
        return false;
    };
    let Some(keys) = sp_ots::candidates(&one, &other) else {
        return false;
    };
    first.key.is_above(one.q, &keys.0, first.sig)
        && second.key.is_above(other.q, &keys.1, second.sig)
}

impl<'a> Claim<'a> {
    /// The one-time signature in the signature. None exactly where the signature has another form than those under the key.
    fn one_time(&self) -> Option<sp_ots::Claim<'a>>
        ensures form { IfSome result (λ claim. HasForm self.now.key.now.lms self.now.key.now.ots self.now.sig.now) }
        ensures key { IfSome result (λ claim. (claim.param ≡ self.now.key.now.ots) × (claim.id.now ≡ self.now.key.now.id)) }
        ensures leaf { IfSome result (λ claim. claim.q ≡ leaf_of self.now.sig.now) }
        ensures signature { IfSome result (λ claim. (claim.msg.now ≡ self.now.msg.now)
            × (claim.sig.now ≡ one_time_of self.now.key.now.ots self.now.sig.now)) }
        ensures none { IsNone result → ¬ HasForm self.now.key.now.lms self.now.key.now.ots self.now.sig.now }
    {
        let q = self.key.leaf_of(self.sig)?;
        Some(sp_ots::Claim {
            param: self.key.ots,
            id: &self.key.id,
            q,
            msg: self.msg,
            sig: self.key.one_time_of(self.sig),
        })
    }
}
