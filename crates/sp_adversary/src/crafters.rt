// The crafting signers: one for each key that messages and documents are crafted with. It isn't the node's own, though both sign with one key.
ghost use Rattle.std.specs.Prelude.{◌≡◌, ◌<◌, ◌≤◌, ◌+◌, IfSome, length, position};
ghost use Rattle.sp_adversary.specs.Crafters.{no_crafts};
ghost use Rattle.sp_adversary.specs.Crafting.{Crafts, CraftsDocument, CraftsSignature, HasLength, HasRoom};
ghost use Rattle.sp_adversary.specs.Signers.{Signs, is_crafter};
ghost use Rattle.sp_frame.specs.declared.writing.TheConstants.{MAX_DOCUMENT_BYTES};
ghost use Rattle.sp_hss.specs.KeyTree.{signature_len, total};
ghost use Rattle.sp_msg.specs.Bodies.{HasGoodFieldsIn};
ghost use Rattle.sp_sign.specs.Heights.{param_of};

use crate::keys::{signature_len, whole_signer};
use sp_base::{Bytes, Listed, Memory, NodeId, push_bytes, push_in_room};
use sp_hss::Signer;
use sp_msg::{Body, Kept, encode_in, keep};
use sp_schedule_events::Scenario;
use sp_topology::LmsHeight;
use std::alloc::Global;
use std::marker::Model;

/// The answer of a crafting signer.
#[derive(Debug, Drop)]
pub enum Crafted<T> {
    /// What has the next signature.
    Signed(T),
    /// The key has made all its signatures, so many.
    Spent { total: u64 },
}

/// A key and its crafting signer.
#[derive(Drop)]
pub(crate) struct Crafter {
    key: NodeId,
    signer: Signer,
}

/// The crafting signers of a scenario, each made at the first use of its key.
///
/// A contract sees the format of messages, the height and the seed of all keys, and how many messages were signed with each.
#[derive(Drop)]
pub struct Crafters {
    format: u8,
    height: LmsHeight,
    seed: [u8; 32],
    signers: Vec<Crafter>,
}

impl Model for Crafters {
    ghost use Rattle.std.specs.Prelude.{map};
    ghost use Rattle.sp_adversary.specs.Crafters as crafting;

    ghost Value = { crafting.Crafters };

    ghost use Rattle.sp_adversary.specs.Signers.{AreWhole, used_of};

    ghost view = { λ c. record { format = c.format; height = c.height; seed = c.seed; keys = map used_of c.signers.items } };

    ghost invariant = { λ c. AreWhole c.height c.seed c.signers.items };
}

impl Crafters {
    /// The crafting signers of a scenario, of which no key was used. It takes no memory.
    pub fn new(alloc: Global, scenario: &Scenario) -> Crafters
        ensures { result ≡ no_crafts scenario.now }
    {
        Crafters {
            format: scenario.format,
            height: scenario.height,
            seed: scenario.seed,
            signers: Vec::new(alloc),
        }
    }

    /// The message with the next signature of the key, or that none is left. The key's signer is made at its first use.
    /// Only want of memory refuses, and then nothing has changed.
    pub fn craft(
        &mut self,
        alloc: Global,
        key: NodeId,
        body: &Body,
    ) -> Result<Crafted<Kept>, Memory>
        requires { HasGoodFieldsIn self.old.format body.now }
        ensures crafted { Crafts self.old key body.now result self.new }
        ensures written { HasRoom self.old.format result }
    {
        let Ok(bytes) = encode_in(alloc, body, self.format) else {
            return Err(Memory);
        };
        let Ok(mut object) = keep(alloc, &body.as_ref(), &[]) else {
            return Err(Memory);
        };
        match self.signature(alloc, key, bytes.as_slice())? {
            Crafted::Signed(signature) => {
                object.signature = signature;
                Ok(Crafted::Signed(object))
            }
            Crafted::Spent { total } => Ok(Crafted::Spent { total }),
        }
    }

    /// The bytes of a topology with the next signature of the key behind them, or that none is left, in the same way.
    pub fn craft_document(
        &mut self,
        alloc: Global,
        key: NodeId,
        unsigned: &[u8],
    ) -> Result<Crafted<Bytes>, Memory>
        requires { length unsigned.now ≤ MAX_DOCUMENT_BYTES }
        ensures crafted { CraftsDocument self.old key unsigned.now result self.new }
        ensures long { HasLength (length unsigned.now + signature_len (param_of self.old.height)) result }
    {
        let room = unsigned.len() + signature_len(self.height);
        let mut document = Vec::with_capacity(alloc, room)?;
        push_bytes(&mut document, unsigned);
        match self.signature(alloc, key, unsigned)? {
            Crafted::Signed(signature) => {
                push_bytes(&mut document, signature.as_slice());
                Ok(Crafted::Signed(Bytes::from_vec(document)))
            }
            Crafted::Spent { total } => Ok(Crafted::Spent { total }),
        }
    }

    /// The key's next signature of these bytes.
    fn signature(
        &mut self,
        alloc: Global,
        key: NodeId,
        message: &[u8],
    ) -> Result<Crafted<Bytes>, Memory>
        ensures crafted { CraftsSignature self.old key message.now result self.new }
        ensures long { HasLength (signature_len (param_of self.old.height)) result }
        ensures format { self.new.format ≡ self.old.format }
    {
        match place_of(&self.signers, key) {
            Some(place) => {
                let crafter = &mut self.signers[place];
                sign(alloc, &mut crafter.signer, message)
            }
            None => {
                self.signers.reserve(1)?;
                let mut signer = whole_signer(alloc, self.height, &self.seed, key)?;
                let crafted = sign(alloc, &mut signer, message)?;
                push_in_room(&mut self.signers, Crafter { key, signer });
                Ok(crafted)
            }
        }
    }
}

/// The place of a key's signer. None exactly where it has none yet.
fn place_of(signers: &[Crafter], key: NodeId) -> Option<usize>
    ensures place { result ≡ position (is_crafter key) signers.now }
    ensures within { IfSome result (λ place. place < length signers.now) }
{
    signers.iter().position(|crafter| crafter.key.0 == key.0)
}

/// The signer's next signature, or that none is left. All memory is taken before the index is used.
fn sign(alloc: Global, signer: &mut Signer, message: &[u8]) -> Result<Crafted<Bytes>, Memory>
    requires whole { signer.old.bound ≡ total signer.old.height }
    ensures signed { Signs signer.old message.now result signer.new }
    ensures long { HasLength (signature_len signer.old.height) result }
{
    let mut signature = vec![in alloc; 0u8; signer.signature_len()]?;
    let index = signer.index();
    match signer.sign(message, &mut signature) {
        Ok(()) => Ok(Crafted::Signed(Listed::from_vec(signature))),
        Err(_) => Ok(Crafted::Spent { total: index }),
    }
}
