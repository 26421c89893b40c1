// The number of an end of an edge that isn't there: no event asks for it.
ghost use Rattle.std.specs.Prelude.{IfOk};
ghost use Rattle.sp_topology.specs.Ranges.{IsTopology};

use hex::decode;
use sp_base::{EdgeId, NodeId};
use sp_topology::Topology;
use sp_weights::Weights;
use std::alloc::Global;
use std::test::Fail;

/// The edges 1-2 of weight 10, 1-4 of 20, 2-3 of 30 and 3-4 of 40.
const FOUR_EDGES: &str = "000401020000000a01040000001402030000001e030400000028";

/// A topology of four nodes with these edges.
fn topology_of(alloc: Global, edges: &str) -> Result<Topology, Fail>
    ensures { IfOk result IsTopology }
{
    let mut bytes = decode(alloc, "4d544d5701000000010504")?;
    for id in 1..5 {
        bytes.push(id)?;
        bytes.extend_from_slice(&decode(alloc, "000000020000000500000003")?)?;
        bytes.extend_from_slice(&vec![in alloc; id; 48]?)?;
    }
    bytes.extend_from_slice(&decode(alloc, edges)?)?;
    let (topology, _) = Topology::read(alloc, &bytes)?;
    Ok(topology)
}

#[test]
fn an_end_that_is_not_there_begins_with_one(rt: HostRuntime) -> Result<(), Fail> {
    let alloc = rt.alloc();
    let topology = topology_of(alloc, FOUR_EDGES)?;
    let weights = Weights::new(alloc, &topology)?;
    assert_eq!(rt; weights.next_seq(EdgeId(0), NodeId(3)), 1);
    assert_eq!(rt; weights.next_seq(EdgeId(4), NodeId(3)), 1);
    Ok(())
}
