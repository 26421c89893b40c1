//! Tags of messages under a shared key, HMAC-SHA-256 (RFC 2104), made and checked without taking memory.
#![tactic(auto)]

ghost use Rattle.std.specs.Prelude.{◌≡◌, ◌++◌, ◌↔◌, IsTrue};
ghost use Rattle.sp_hmac.specs.Hmac.{hmac};

mod keyed;
mod same;

pub use keyed::Keyed;

/// The tag of `a` followed by `b` (RFC 2104, section 2).
///
/// For many messages under one key, make a `Keyed` once.
pub fn tag(key: &[u8], a: &[u8], b: &[u8]) -> [u8; 32]
    ensures { result ≡ hmac key.now (a.now ++ b.now) }
{
    Keyed::new(key).tag(a, b)
}

/// Whether this is the tag of `a` followed by `b`, all 32 bytes of it.
///
/// A tag of 32 bytes is read to its end before the answer, wherever it differs.
pub fn verify(key: &[u8], a: &[u8], b: &[u8], tag: &[u8]) -> bool
    ensures { IsTrue result ↔ (tag.now ≡ hmac key.now (a.now ++ b.now)) }
{
    Keyed::new(key).verify(a, b, tag)
}
