// The public keys of as many leaves as there are lanes, each leaf in a lane of its own (RFC 8554, section 4.3).
ghost use Rattle.std.specs.Prelude.{◌≡◌, ◌+◌, ◌*◌, ◌<◌, ◌≤◌, ◌^◌, ◌++◌, ℕ, [], map, slice_index_or, take};
ghost use Rattle.std.specs.List.{range_with_len};
ghost use Rattle.sp_ots.specs.Lanes.{lanes};
ghost use Rattle.sp_ots.specs.Strings.{u8str};
ghost use Rattle.sp_ots.specs.Keys.{public_key};
ghost use Rattle.sp_ots.specs.Leaves.{end_of_start, front_of};

use crate::hashes::{D_PBLC, element_message};
use crate::keys::SEED_STEP;
use crate::lanes::renew;
use crate::param::MOST_CHAINS;
use crate::{LANES, OtsParam, digests, prefix_digests};

/// Where the ends of the chains begin in the message that a public key is the hash of.
const FRONT: usize = 22;

/// The most bytes of that message.
const ROOM: usize = FRONT + 32 * MOST_CHAINS;

/// The public keys of leaf q and those after it, one in each lane (RFC 8554, section 4.3), which the seed gives (appendix A).
///
/// The chains of one leaf leave a lane idle at their end, so a tree is made of several leaves at once.
pub fn publics(param: OtsParam, id: &[u8; 16], q: u32, seed: &[u8; 32]) -> [[u8; 32]; LANES]
    requires { q + lanes ≤ 2 ^ 32 }
    ensures { result ≡ map (λ leaf. public_key param id.now leaf seed.now) (range_with_len q lanes) }
{
    let last = param.last_step();
    let mut messages = fronts(id, q);
    'chains: for i in 0..param.chain_count() {
        let ends = ends(id, q, i as u16, seed, last);
        put(&mut messages, FRONT + 32 * i, &ends);
    }
    prefix_digests(&messages, FRONT + 32 * param.chain_count())
}

/// What each leaf's message begins with.
fn fronts(id: &[u8; 16], q: u32) -> [[u8; ROOM]; LANES]
    requires { q + lanes ≤ 2 ^ 32 }
    ensures { (k : ℕ) → k < lanes → take 22 (slice_index_or result k []) ≡ front_of id.now (q + k) 0x8080 }
{
    let mut messages = [[0u8; ROOM]; LANES];
    'lanes: for k in 0..LANES {
        put_front(&mut messages[k], id, q + k as u32);
    }
    messages
}

/// Writes what a leaf's message begins with.
fn put_front(message: &mut [u8; ROOM], id: &[u8; 16], q: u32)
    ensures { take 22 message.new ≡ front_of id.now q 0x8080 }
{
    let other = element_message(id, q, D_PBLC, 0, &[0; 32]);
    message[..FRONT].copy_from_slice(&other[..FRONT]);
}

/// Writes a piece into each message from a place on.
fn put(messages: &mut [[u8; ROOM]; LANES], place: usize, pieces: &[[u8; 32]; LANES])
    requires { place + 32 ≤ 8502 }
    ensures { (k : ℕ) → k < lanes
        → take (place + 32) (slice_index_or messages.new k []) ≡ take place (slice_index_or messages.old k []) ++ slice_index_or pieces.now k [] }
{
    'lanes: for k in 0..LANES {
        put_piece(&mut messages[k], place, &pieces[k]);
    }
}

/// Writes a piece into a message from a place on.
fn put_piece(message: &mut [u8; ROOM], place: usize, piece: &[u8; 32])
    requires { place + 32 ≤ 8502 }
    ensures { take (place + 32) message.new ≡ take place message.old ++ piece.now }
{
    message[place..place + 32].copy_from_slice(piece);
}

/// The end of chain i of each leaf.
fn ends(id: &[u8; 16], q: u32, i: u16, seed: &[u8; 32], last: u8) -> [[u8; 32]; LANES]
    requires { q + lanes ≤ 2 ^ 32 }
    ensures { (k : ℕ) → k < lanes → slice_index_or result k [] ≡ end_of_start id.now (q + k) i last seed.now }
{
    let mut messages = start_messages(id, q, i, seed);
    let mut elements = digests(&messages);
    'steps: for j in 0..last {
        renew_all(&mut messages, j, &elements);
        elements = digests(&messages);
    }
    elements
}

/// The messages whose hashes are the private starts of chain i.
fn start_messages(id: &[u8; 16], q: u32, i: u16, seed: &[u8; 32]) -> [[u8; 55]; LANES]
    requires { q + lanes ≤ 2 ^ 32 }
    ensures { (k : ℕ) → k < lanes → slice_index_or result k [] ≡ front_of id.now (q + k) i ++ u8str 0xff ++ seed.now }
{
    let mut messages = [[0u8; 55]; LANES];
    'lanes: for k in 0..LANES {
        messages[k] = element_message(id, q + k as u32, i, SEED_STEP, seed);
    }
    messages
}

/// Puts another step's number and elements into the messages.
fn renew_all(messages: &mut [[u8; 55]; LANES], step: u8, elements: &[[u8; 32]; LANES])
    ensures { (k : ℕ) → k < lanes
        → slice_index_or messages.new k [] ≡ take 22 (slice_index_or messages.old k []) ++ u8str step ++ slice_index_or elements.now k [] }
{
    'lanes: for k in 0..LANES {
        renew(&mut messages[k], step, &elements[k]);
    }
}
