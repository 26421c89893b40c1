// A daemon's node at its start.
ghost use Rattle.std.specs.Prelude.{◌≡◌, ◌≤◌, ◌↔◌, IfOk, IsTrue, length};
ghost use Rattle.sp_frame.specs.declared.writing.TheConstants.{MAX_DOCUMENT_BYTES};
ghost use Rattle.sp_service.specs.Starts.{CanAnnounce, IsOpening, IsSignedBy, IsStarted};
ghost use Rattle.sp_service.specs.Fits.{Fits};
ghost use Rattle.sp_service.specs.NodeParts.{IsKeyOf};
ghost use Rattle.sp_topology.specs.Ranges.{IsTopology};

use crate::fitting::Fitted;
use crate::node_parts::{link_keys, node_signer};
use sp_base::{Bytes, FORMAT_2, Limits, Listed, Memory};
use sp_config::Config;
use sp_node::NodeConfig;
use sp_recording::Opening;
use sp_service_station::Station;
use sp_topology::Topology;
use std::alloc::Global;

/// Whether the node of this start has an index to sign its boot with, where it signs it.
pub fn can_announce(topology: &Topology, opening: Opening) -> bool
    ensures { IsTrue result ↔ CanAnnounce topology.now opening }
{
    topology.format != FORMAT_2 || opening.index < opening.bound
}

/// The station of a configuration that fits its topology, at the start that the first line of a recording says. Under a document of format 2 its
/// node has signed its boot.
#[tactic(auto, using(crate::proofs::Bootable::bootable, crate::proofs::Bootable::signed_by))]
pub fn station_at(
    alloc: Global,
    config: &Config,
    fitted: Fitted,
    opening: Opening,
) -> Result<Station, Memory>
    requires fits { Fits config.now fitted.topology }
    requires topology { IsTopology fitted.topology }
    requires key { IsKeyOf config.now fitted.topology.height fitted.key }
    requires opening { IsOpening fitted.topology opening }
    ensures { IfOk result (IsStarted config.now fitted.topology opening) }
{
    let Fitted { topology, key } = fitted;
    let signer = node_signer(alloc, config.node, key, opening.index, opening.bound)?;
    let keys = link_keys(alloc, config, &topology)?;
    let document = document_of(alloc, &config.admin, config.topology.as_slice())?;
    let epochs = topology.format == FORMAT_2;
    let node = NodeConfig {
        me: config.node,
        topology,
        document,
        limits: Limits {
            buffer: config.buffer,
            store: config.store,
        },
        keys: Listed::from_vec(keys),
        admin: config.admin,
        epochs,
    };
    Station::boot(alloc, node, signer, opening.boot)
}

/// The signed document of a configuration, as its node gives it to others. A frame has room for it.
fn document_of(alloc: Global, admin: &[u8; 60], document: &[u8]) -> Result<Bytes, Memory>
    requires { IsSignedBy admin.now document.now }
    ensures copied { IfOk result (λ copied. copied ≡ document.now) }
    ensures short { length document.now ≤ MAX_DOCUMENT_BYTES }
{
    Bytes::copy(alloc, document)
}
