// A node that signs messages, each index of its key once.
ghost use Rattle.std.specs.Prelude.{◌≡◌, ◌≢◌, ◌+◌, ◌≤◌, ◌↔◌, IfErr, IfOk, IsErr, OnErr, OnOk, length, replicate};
ghost use Rattle.sp_hss.specs.KeyTree.{public_key, signature, signature_len, total};
ghost use Rattle.sp_hss.specs.Validity.{IsValid};
ghost use Rattle.sp_msg.specs.Bodies.{HasGoodFields, HasGoodFieldsIn};
ghost use Rattle.sp_sign.specs.Blanks.{IsBlank, blank_in, blank_of, with_signature};

use crate::Blank;
use sp_base::{FORMAT_1, Listed, NodeId};
use sp_hss::{HssRefused, Signer};
use sp_msg::{Body, Kept, encode_in};
use std::alloc::Global;
use std::marker::Model;

/// A node and the key that it signs with. A contract sees the two.
#[derive(Drop)]
pub struct NodeSigner {
    node: NodeId,
    signer: Signer,
}

impl Model for NodeSigner {
    ghost use Rattle.sp_sign.specs.NodeSigner as own;

    ghost Value = { own.NodeSigner };

    ghost view = { λ s. record { node = s.node; signer = s.signer } };
}

impl NodeSigner {
    /// The node that signs with this key.
    pub fn new(node: NodeId, signer: Signer) -> NodeSigner
        ensures { result ≡ record { node = node; signer = signer } }
    {
        NodeSigner { node, signer }
    }

    /// The node that signs.
    pub fn node(&self) -> NodeId
        ensures { result ≡ self.now.node }
    {
        self.node
    }

    /// The public key (RFC 8554, section 6.1).
    pub fn public(&self) -> [u8; 60]
        ensures { result ≡ public_key self.now.signer.height self.now.signer.seed }
    {
        self.signer.public()
    }

    /// Reserves the indexes up to, and not with, `upto`.
    pub fn extend(&mut self, upto: u64)
        requires forward { self.old.signer.bound ≤ upto }
        requires within { upto ≤ total self.old.signer.height }
        ensures { self.new ≡ record { node = self.old.node; signer = record self.old.signer { bound = upto } } }
    {
        self.signer.extend(upto);
    }

    /// The index of the next signature. None below is used again.
    pub fn index(&self) -> u64
        ensures value { result ≡ self.now.signer.index }
        ensures reserved { result ≤ self.now.signer.bound }
    {
        self.signer.index()
    }

    /// The indexes below this one are reserved for the signer.
    pub fn bound(&self) -> u64
        ensures value { result ≡ self.now.signer.bound }
        ensures within { result ≤ total self.now.signer.height }
    {
        self.signer.bound()
    }

    /// How many messages the key may sign.
    pub fn total(&self) -> u64
        ensures { result ≡ total self.now.signer.height }
    {
        self.signer.total()
    }

    /// The bytes of each signature: 4,756 at height 5 and 5,076 at height 10.
    pub fn signature_len(&self) -> usize
        ensures { result ≡ signature_len self.now.signer.height }
    {
        self.signer.signature_len()
    }

    /// A message of format 1 to be signed: its bytes, and room for the signature, whose bytes are all 0. Only want of memory refuses.
    pub fn blank(&self, alloc: Global, body: Body) -> Result<Blank, HssRefused>
        requires { HasGoodFields body }
        ensures blank { IfOk result (λ blank. blank ≡ blank_of (signature_len self.now.signer.height) body) }
        ensures memory { IfErr result (λ refused. refused ≡ HssRefused.Memory) }
    {
        self.blank_in(alloc, body, FORMAT_1)
    }

    /// The same of a message of a format.
    pub fn blank_in(&self, alloc: Global, body: Body, format: u8) -> Result<Blank, HssRefused>
        requires { HasGoodFieldsIn format body }
        ensures blank { IfOk result (λ blank. blank ≡ blank_in format (signature_len self.now.signer.height) body) }
        ensures memory { IfErr result (λ refused. refused ≡ HssRefused.Memory) }
    {
        let Ok(bytes) = encode_in(alloc, &body, format) else {
            return Err(HssRefused::Memory);
        };
        let Ok(signature) = vec![in alloc; 0u8; self.signer.signature_len()] else {
            return Err(HssRefused::Memory);
        };
        Ok(Blank {
            kept: Kept {
                body,
                signature: Listed::from_vec(signature),
            },
            bytes,
        })
    }

    /// Signs a blank of this node, of either format: its signature becomes that of its bytes with the signer's index, and the next index comes.
    /// `Spent` exactly where all indexes are used, and else `NotReserved` exactly where none below the bound is left.
    /// After a refusal the signer and the blank are as before.
    pub fn sign(&mut self, blank: &mut Blank) -> Result<(), HssRefused>
        requires { IsBlank self.old blank.old }
        ensures signature { OnOk result (blank.new
            ≡ with_signature blank.old (signature self.old.signer.height self.old.signer.seed self.old.signer.index blank.old.bytes)) }
        ensures valid { OnOk result (IsValid (public_key self.old.signer.height self.old.signer.seed) blank.new.bytes blank.new.kept.signature) }
        ensures index { OnOk result (self.new ≡ record { node = self.old.node; signer = record self.old.signer { index = self.old.signer.index + 1 } }) }
        ensures spent { (result ≡ Err (HssRefused.Spent self.old.signer.index)) ↔ (self.old.signer.index ≡ total self.old.signer.height) }
        ensures not_reserved { (result ≡ Err (HssRefused.NotReserved self.old.signer.bound))
            ↔ ((self.old.signer.index ≢ total self.old.signer.height) × (self.old.signer.index ≡ self.old.signer.bound)) }
        ensures only { IsErr result ↔ (self.old.signer.index ≡ self.old.signer.bound) }
        ensures as_before { OnErr result (self.new ≡ self.old) }
        ensures blank_as_before { OnErr result (blank.new ≡ blank.old) }
    {
        let signature = blank.kept.signature.as_mut_slice();
        self.signer.sign(blank.bytes.as_slice(), signature)
    }
}
