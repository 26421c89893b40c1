// The header of a number's schedule.
ghost use Rattle.std.specs.Prelude.{◌≡◌, IfOk};
ghost use Rattle.sp_generate.specs.Generated.{edge, edges, generated_scenario, seed};

use sp_base::{FORMAT_1, Limits, Listed, Memory, NodeId};
use sp_schedule_events::{Edge, Graph, LmsHeight, Scenario};
use std::alloc::Global;

/// The header.
pub fn scenario(alloc: Global, number: u32) -> Result<Scenario, Memory>
    ensures { IfOk result (λ made. made ≡ generated_scenario number) }
{
    Ok(Scenario {
        format: FORMAT_1,
        seed: seed(number),
        height: LmsHeight::Five,
        limits: Limits {
            buffer: 16,
            store: 16,
        },
        graph: Graph {
            nodes: 8,
            edges: edges(alloc)?,
        },
        bad: Listed::from_vec(Vec::from_slice(alloc, [NodeId(4), NodeId(8)].as_slice())?),
        epochs: false,
    })
}

/// The number as the seed of all keys.
fn seed(number: u32) -> [u8; 32]
    ensures { result ≡ seed number }
{
    let mut seed = [0u8; 32];
    seed[28..].copy_from_slice(&number.to_be_bytes());
    seed
}

/// The links.
fn edges(alloc: Global) -> Result<Listed<Edge>, Memory>
    ensures { IfOk result (λ made. made ≡ edges) }
{
    let links = [
        edge(1, 2),
        edge(1, 5),
        edge(1, 8),
        edge(2, 3),
        edge(2, 6),
        edge(3, 4),
        edge(3, 7),
        edge(4, 5),
        edge(4, 8),
        edge(5, 6),
        edge(6, 7),
        edge(7, 8),
    ];
    Ok(Listed::from_vec(Vec::from_slice(alloc, links.as_slice())?))
}

/// The link between two nodes.
fn edge(low: u8, high: u8) -> Edge
    ensures { result ≡ edge low high }
{
    Edge {
        low: NodeId(low),
        high: NodeId(high),
        weight: 10,
    }
}
