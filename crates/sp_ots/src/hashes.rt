// The messages that are hashed. Each begins with the tree's id, the leaf, and a number that says what it is for
// (RFC 8554, section 7.1).
ghost use Rattle.std.specs.Prelude.{◌≡◌, ◌+◌, ◌≤◌, ◌++◌, length, take, drop};
ghost use Rattle.std.specs.List.{concat};
ghost use Rattle.sp_ots.specs.Strings.{u8str, u16str, u32str};
ghost use Rattle.sp_ots.specs.Keys.{key_of_ends};
ghost use Rattle.sp_ots.specs.Signature.{message_hash};
ghost use Rattle.sha2.specs.Hashers.{Holds256};

use sha2::{Digest, Sha256};

/// The number before the ends of all chains.
pub(crate) const D_PBLC: u16 = 0x8080;

/// The number before the randomizer and the message that is signed.
const D_MESG: u16 = 0x8181;

/// The message whose hash is the next element of a chain, or a private start.
///
/// Its 55 bytes and their padding are one block of SHA-256.
pub(crate) fn element_message(id: &[u8; 16], q: u32, i: u16, j: u8, element: &[u8; 32]) -> [u8; 55]
    ensures { result ≡ id.now ++ u32str q ++ u16str i ++ u8str j ++ element.now }
{
    let mut message = [0u8; 55];
    put(&mut message, 0, id);
    put(&mut message, 16, &q.to_be_bytes());
    put(&mut message, 20, &i.to_be_bytes());
    put(&mut message, 22, &[j]);
    put(&mut message, 23, element);
    message
}

/// Writes the bytes over those from a place on.
fn put(message: &mut [u8; 55], place: usize, bytes: &[u8])
    requires { place + length bytes.now ≤ 55 }
    ensures { message.new ≡ take place message.old ++ bytes.now ++ drop (place + length bytes.now) message.old }
{
    message[place..place + bytes.len()].copy_from_slice(bytes);
}

/// The public key of the ends of all chains.
#[tactic(auto, using(std::proofs::lemmas::List::Concat::concat_is), unfolding(crate::specs::Keys::key_of_ends))]
pub(crate) fn key_of_ends(id: &[u8; 16], q: u32, ends: &[[u8; 32]]) -> [u8; 32]
    ensures { result ≡ key_of_ends id.now q ends.now }
{
    let mut hasher = begun(id, q, D_PBLC);
    hasher.update(ends.as_flattened());
    hasher.finalize()
}

/// The hash of a message after its randomizer.
#[tactic(auto, unfolding(crate::specs::Signature::message_hash))]
pub(crate) fn message_hash(id: &[u8; 16], q: u32, randomizer: &[u8], message: &[u8]) -> [u8; 32]
    ensures { result ≡ message_hash id.now q randomizer.now message.now }
{
    let mut hasher = begun(id, q, D_MESG);
    hasher.update(randomizer);
    hasher.update(message);
    hasher.finalize()
}

/// A hasher that holds the front of a message: the tree's id, a number of a leaf or a node, and the number that
/// says what the message is for.
#[tactic(auto, unfolding(crate::specs::Strings::u16str, crate::specs::Strings::u32str))]
pub fn begun(id: &[u8; 16], q: u32, number: u16) -> Sha256
    ensures { Holds256 result (id.now ++ u32str q ++ u16str number) }
{
    let mut hasher = Sha256::new();
    hasher.update(id);
    hasher.update(q.to_be_bytes());
    hasher.update(number.to_be_bytes());
    hasher
}
