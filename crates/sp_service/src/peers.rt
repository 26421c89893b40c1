// Whether the peers of a configuration are its neighbours.
ghost use Rattle.std.specs.Prelude.{◌≡◌, ◌==◌, ◌↔◌, IsTrue, map};
ghost use Rattle.std.specs.List.{list_any};
ghost use Rattle.sp_service.specs.Fits.{have_own_ports};

use sp_base::{EdgeId, NodeId};
use sp_config::Peer;

/// Whether the peers are these neighbours, in their order.
pub fn are_neighbours(peers: &[Peer], neighbours: &[(NodeId, EdgeId)]) -> bool
    ensures { IsTrue result ↔ (map (λ p. p.id) peers.now ≡ map (λ n. n.0) neighbours.now) }
{
    let mut rest = neighbours;
    'peers: for peer in peers {
        let Some((first, others)) = rest.split_first() else {
            return false;
        };
        if first.0.0 != peer.id.0 {
            return false;
        }
        rest = others;
    }
    rest.is_empty()
}

/// Whether no two peers have one port.
pub fn have_own_ports(peers: &[Peer]) -> bool
    ensures { result ≡ have_own_ports peers.now }
{
    let mut rest = peers;
    'peers: for peer in peers {
        let Some((_, others)) = rest.split_first() else {
            return true;
        };
        if has_port(others, peer.port) {
            return false;
        }
        rest = others;
    }
    true
}

/// Whether one of the peers has this port.
fn has_port(peers: &[Peer], port: u16) -> bool
    ensures { result ≡ list_any (λ p. p.port == port) peers.now }
{
    peers.iter().any(|peer| peer.port == port)
}
