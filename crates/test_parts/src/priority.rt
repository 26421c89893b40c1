// What no frame asks of the priority part: a message of another kind, and a node that is no neighbour.
use sp_base::{EdgeId, NodeId};
use sp_msg::BodyRef;
use sp_prio::{Neighbour, PrioJudged, PrioTable};
use std::alloc::Global;
use std::test::Fail;

/// Node 2 of five, with three neighbours.
fn node_of_rows(alloc: Global) -> Result<PrioTable, Fail> {
    let nodes = [NodeId(1), NodeId(2), NodeId(3), NodeId(4), NodeId(5)];
    let neighbours = [
        Neighbour {
            id: NodeId(1),
            edge: EdgeId(0),
        },
        Neighbour {
            id: NodeId(3),
            edge: EdgeId(1),
        },
        Neighbour {
            id: NodeId(4),
            edge: EdgeId(2),
        },
    ];
    Ok(PrioTable::new(alloc, NodeId(2), nodes.as_slice(), neighbours.as_slice(), 3)?)
}

#[test]
fn the_greatest_link_number_that_came_is_acknowledged(rt: HostRuntime) -> Result<(), Fail> {
    let mut table = node_of_rows(rt.alloc())?;
    table.heard(NodeId(3), 5);
    table.heard(NodeId(3), 4);
    for (id, number) in [(1, 0), (3, 5), (4, 0), (5, 0)] {
        assert_eq!(rt; table.heard_of(NodeId(id)), number);
    }
    Ok(())
}

#[test]
fn a_message_of_another_kind_has_no_right_end(rt: HostRuntime) -> Result<(), Fail> {
    let bytes = hex::decode(rt.alloc(), "02010500000000000000010000")?;
    let body = BodyRef::read(&bytes)?;
    let table = node_of_rows(rt.alloc())?;
    assert_eq!(rt; table.judge_ref(&body, 0), PrioJudged::BadEnd);
    Ok(())
}
