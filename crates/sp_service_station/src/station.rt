// A node with the sessions of its clients.
ghost use Rattle.std.specs.Prelude.{◌≡◌, IfOk};
ghost use Rattle.sp_client.specs.Tables.{no_sessions};
ghost use Rattle.sp_node_state.specs.Boots.{IsBootable, started_of};
ghost use Rattle.sp_service_station.specs.Stations.{node_of};

use crate::asked;
use sp_base::{Bytes, Memory, NodeId};
use sp_client::Clients;
use sp_client_node::LocalNode;
use sp_node::{Node, NodeConfig};
use sp_rules::Step;
use sp_service_turns::{Core, Indexes};
use sp_sign::NodeSigner;
use std::alloc::Global;
use std::marker::Model;

/// A node with the sessions of its clients. A contract sees the table of the sessions, and the node.
#[derive(Drop)]
pub struct Station {
    clients: Clients,
    local: LocalNode,
}

impl Model for Station {
    ghost use Rattle.std.specs.Prelude.{◌≤◌};
    ghost use Rattle.sp_node_format.specs.PolledFrames.{most_signature};
    ghost use Rattle.sp_service_station.specs.Stations as stations;

    ghost Value = { stations.Station };

    ghost view = { λ s. record { clients = s.clients; local = s.local } };

    ghost invariant = { λ s. s.local.node.state.fixed.signature_len ≤ most_signature };
}

impl Station {
    /// A station at the start of a life of its node with this boot number: nothing was sent, heard or kept but its own boot, with epochs, and no
    /// client has a session. What the start caused isn't told. Only want of memory refuses.
    #[tactic(auto, using(crate::proofs::Boots::is_short))]
    pub fn boot(
        alloc: Global,
        config: NodeConfig,
        signer: NodeSigner,
        boot: u64,
    ) -> Result<Station, Memory>
        requires { IsBootable config signer boot }
        ensures node { IfOk result (λ station. node_of station ≡ started_of config signer boot) }
        ensures clients { IfOk result (λ station. station.clients ≡ no_sessions) }
    {
        let clients = Clients::new(alloc)?;
        let Ok(Step { reply: node, .. }) = Node::boot(alloc, config, signer, boot) else {
            return Err(Memory);
        };
        Ok(Station {
            clients,
            local: LocalNode {
                node,
                effects: None,
            },
        })
    }
}

impl Core for Station {
    ghost use Rattle.sp_service_station.specs.Stations.{StationStep, indexes_in};

    ghost steps = { λ old input answer new. StationStep old input answer new };

    ghost indexes = { λ s. indexes_in s };

    fn indexes(&self) -> Indexes {
        asked::indexes(&self.local.node)
    }

    fn reserve(&mut self, upto: u64) {
        asked::reserve(&mut self.local.node, upto);
    }

    fn tick(&mut self, alloc: Global, now: u64) -> Result<Bytes, Memory> {
        asked::tick(alloc, &mut self.local.node, now)
    }

    fn datagram(&mut self, alloc: Global, node: NodeId, bytes: &[u8]) -> Result<Bytes, Memory> {
        asked::datagram(alloc, &mut self.local.node, node, bytes)
    }

    fn request(&mut self, alloc: Global, port: u16, bytes: &[u8]) -> Result<Bytes, Memory> {
        asked::request(alloc, &mut self.clients, &mut self.local, port, bytes)
    }

    fn poll(&mut self, alloc: Global, node: NodeId) -> Result<Bytes, Memory> {
        asked::poll(alloc, &mut self.local.node, node)
    }
}
