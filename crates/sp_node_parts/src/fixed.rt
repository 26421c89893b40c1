// What stays as it is in one of a node's lives.
use sp_base::{Bytes, NodeId};
use sp_topology::Topology;
use std::marker::Model;

/// A node in one of its lives: its id, its boot number, the topology that it boots with and the document that says so, how many bytes all signatures have
/// there, the administrator's key, and whether nodes run with epochs. What a later version of the topology changes is no part of it (`Live`).
/// A contract sees the same of the rules (`sp_rules`).
#[derive(Debug, Drop)]
pub struct Fixed {
    pub me: NodeId,
    pub boot: u64,
    pub topology: Topology,
    pub document: Bytes,
    pub signature_len: usize,
    pub admin: [u8; 60],
    pub epochs: bool,
}

impl Model for Fixed {
    ghost use Rattle.sp_rules.specs.Parts as parts;

    ghost Value = { parts.Fixed };

    ghost view = { λ f. record {
      me = f.me;
      boot = f.boot;
      topology = f.topology;
      document = f.document;
      signature_len = f.signature_len;
      admin = f.admin;
      epochs = f.epochs;
    } };
}
