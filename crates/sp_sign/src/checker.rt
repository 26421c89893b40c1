// Checking the signatures of all nodes of a topology: of each node, the half that its signatures share is checked once.
ghost use Rattle.std.specs.Prelude.{◌≡◌, ◌≢◌, ◌<◌, ◌≤◌, ◌+◌, ◌-◌, ◌^◌, ◌↔◌, min, Some, None, Ok, Err, IfOk, IfSome, IsNone, IsOk, IsTrue, map};
ghost use Rattle.sp_hss.specs.Validity.{IsValid};
ghost use Rattle.sp_msg.specs.Views.{as_body, signer_of};
ghost use Rattle.sp_topology.specs.Keys.{key_of};
ghost use Rattle.sp_sign.specs.Checker.{IsKeyAt, as_key};
ghost use Rattle.sp_sign.specs.Checks.{IsForged, IsReadOf, IsSigned};

use crate::SignRefused;
use crate::checking::check_topology;
use sp_base::{Memory, NodeId};
use sp_hss::Verifier;
use sp_msg::{BodyRef, signer};
use sp_topology::Topology;
use std::alloc::Global;
use std::marker::Model;

/// A node, and its key with what the key remembers.
#[derive(Drop)]
pub(crate) struct NodeVerifier {
    id: NodeId,
    key: Verifier,
}

/// The keys of all nodes of a topology. Each remembers what the last valid signature under it began with, so the next signature by the
/// same lower tree is checked in about half the time.
///
/// A contract sees the nodes with their keys, and how many signatures were checked. It doesn't see what is remembered: no answer depends on
/// it. All memory is taken by `make`.
#[derive(Drop)]
pub struct Checker {
    nodes: Vec<NodeVerifier>,
    checks: u64,
}

impl Model for Checker {
    ghost use Rattle.std.specs.Prelude.{map};
    ghost use Rattle.sp_sign.specs.Checker.{Checking, as_key};

    ghost Value = { Checking };

    ghost view = { λ c. record { nodes = map as_key c.nodes.items; checks = c.checks } };
}

impl Checker {
    /// A checker for the nodes of a topology. Nothing is checked or remembered yet.
    pub fn make(alloc: Global, topology: &Topology) -> Result<Checker, Memory>
        ensures { IfOk result (λ checker. checker ≡ record { nodes = topology.now.nodes; checks = 0 }) }
    {
        let keys = topology.nodes.as_slice();
        let mut nodes = Vec::with_capacity(alloc, keys.len())?;
        'nodes: for named in keys {
            let Ok(key) = Verifier::make(alloc, named.key.as_slice()) else {
                return Err(Memory);
            };
            nodes.push(NodeVerifier { id: named.id, key })?;
        }
        Ok(Checker { nodes, checks: 0 })
    }

    /// Whether these bytes of a message bear its signer's signature: the answer of `check`, whatever is remembered
    /// (RFC 8554, section 6.3). The body is what is read of the bytes. Each call counts as one check at most: none where the signer is unknown.
    pub fn check(
        &mut self,
        bytes: &[u8],
        body: &BodyRef<'_>,
        signature: &[u8],
    ) -> Result<(), SignRefused>
        requires body { IsReadOf bytes.now (as_body body.now) }
        ensures ok { IsOk result ↔ IsSigned (key_of (signer_of (as_body body.now)).0 self.old.nodes) bytes.now signature.now }
        ensures unknown { (result ≡ Err SignRefused.UnknownSigner) ↔ (key_of (signer_of (as_body body.now)).0 self.old.nodes ≡ None) }
        ensures bad { (result ≡ Err SignRefused.BadSignature) ↔ IsForged (key_of (signer_of (as_body body.now)).0 self.old.nodes) bytes.now signature.now }
        ensures nodes { self.new.nodes ≡ self.old.nodes }
        ensures counted { result ≢ Err SignRefused.UnknownSigner → self.new.checks ≡ min (self.old.checks + 1) (2 ^ 64 - 1) }
        ensures uncounted { result ≡ Err SignRefused.UnknownSigner → self.new.checks ≡ self.old.checks }
        ensures at_most_one { self.new.checks ≤ self.old.checks + 1 }
    {
        let Some(place) = place_of(&self.nodes, signer(body)) else {
            return Err(SignRefused::UnknownSigner);
        };
        self.checks = self.checks.saturating_add(1);
        let is_valid = self.nodes[place].key.verify(bytes, signature);
        if !is_valid {
            return Err(SignRefused::BadSignature);
        }
        Ok(())
    }

    /// Whether a document bears the administrator's signature: the answer of the function of the same name. Each call counts as one check.
    pub fn check_topology(&mut self, admin: &[u8; 60], document: &[u8], signature: &[u8]) -> bool
        ensures valid { IsTrue result ↔ IsValid admin.now document.now signature.now }
        ensures nodes { self.new.nodes ≡ self.old.nodes }
        ensures counted { self.new.checks ≡ min (self.old.checks + 1) (2 ^ 64 - 1) }
        ensures at_most_one { self.new.checks ≤ self.old.checks + 1 }
    {
        self.checks = self.checks.saturating_add(1);
        check_topology(admin, document, signature)
    }
}

/// Where the node stands. None exactly where it isn't there.
fn place_of(nodes: &[NodeVerifier], node: NodeId) -> Option<usize>
    ensures some { IfSome result (λ place. IsKeyAt node.0 nodes.now place) }
    ensures none { IsNone result → key_of node.0 (map as_key nodes.now) ≡ None }
{
    'nodes: for place in 0..nodes.len() {
        if nodes[place].id.0 == node.0 {
            return Some(place);
        }
    }
    None
}
