// Whether a signature counts.
ghost use Rattle.std.specs.Prelude.{◌≡◌, ◌↔◌, Some, None, Ok, Err, IsOk, IsTrue};
ghost use Rattle.sp_hss.specs.Validity.{IsValid};
ghost use Rattle.sp_msg.specs.Views.{as_body, signer_of};
ghost use Rattle.sp_topology.specs.Keys.{key_of};
ghost use Rattle.sp_topology.specs.Ranges.{IsTopology};
ghost use Rattle.sp_sign.specs.Checks.{IsForged, IsReadOf, IsSigned};

use crate::SignRefused;
use sp_msg::{BodyRef, signer};
use sp_topology::Topology;

/// Whether these bytes of a message bear its signer's signature (RFC 8554, section 6.3). The body is what is read of the bytes.
/// `UnknownSigner` exactly where the signer is no node, and else `BadSignature` exactly where the signature isn't valid under its key.
pub fn check(
    topology: &Topology,
    bytes: &[u8],
    body: &BodyRef<'_>,
    signature: &[u8],
) -> Result<(), SignRefused>
    requires topology { IsTopology topology.now }
    requires body { IsReadOf bytes.now (as_body body.now) }
    ensures ok { IsOk result ↔ IsSigned (key_of (signer_of (as_body body.now)).0 topology.now.nodes) bytes.now signature.now }
    ensures unknown { (result ≡ Err SignRefused.UnknownSigner) ↔ (key_of (signer_of (as_body body.now)).0 topology.now.nodes ≡ None) }
    ensures bad { (result ≡ Err SignRefused.BadSignature) ↔ IsForged (key_of (signer_of (as_body body.now)).0 topology.now.nodes) bytes.now signature.now }
{
    let Some(key) = topology.key_of(signer(body)) else {
        return Err(SignRefused::UnknownSigner);
    };
    if sp_hss::verify(key.as_slice(), bytes, signature) {
        Ok(())
    } else {
        Err(SignRefused::BadSignature)
    }
}

/// Whether the document bears the administrator's signature (RFC 8554, section 6.3).
pub fn check_topology(admin: &[u8; 60], document: &[u8], signature: &[u8]) -> bool
    ensures { IsTrue result ↔ IsValid admin.now document.now signature.now }
{
    sp_hss::verify(admin.as_slice(), document, signature)
}
