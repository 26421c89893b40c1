// The fields of a line: numbers in their ranges, from left to right.
ghost use Rattle.std.specs.Prelude.{◌≡◌, ◌≤◌, IfOk};
ghost use Rattle.sp_base.specs.Formats.{max_nodes};
ghost use Rattle.sp_graph.specs.Edges.{IsAmong, IsWeight};
ghost use Rattle.sp_graph.specs.Lines.{AreFields, IsField, column_after, place_1};

use crate::GraphRefused;
use sp_base::{MAX_WEIGHT, NodeId, max_nodes};
use sp_text::{At, TextRefused, number};
use sp_topology::Edge;

/// The number of nodes that a line `nodes N` says.
#[tactic(auto, using(sp_base::proofs::FormatLemmas::few_nodes))]
pub fn nodes_of(format: u8, line: u32, word: &[u8]) -> Result<u8, GraphRefused>
    ensures field { IsField (place_1 line 5) 2 (max_nodes format) word.now result }
    ensures within { IfOk result (λ n. (2 ≤ n) × (n ≤ max_nodes format)) }
{
    let place = At { line, column: 7 };
    Ok(number_in(place, 2, u64::from(max_nodes(format)), word)? as u8)
}

/// The edge that a line `edge A B W` says, with nodes from 1 to the last.
pub fn edge_of(
    nodes: u8,
    line: u32,
    low: &[u8],
    high: &[u8],
    weight: &[u8],
) -> Result<Edge, GraphRefused>
    ensures fields { AreFields nodes line low.now high.now weight.now result }
    ensures among { IfOk result (IsAmong nodes) }
    ensures weight { IfOk result IsWeight }
{
    let at_low = At { line, column: 6 };
    let at_high = after(at_low, low);
    let at_weight = after(at_high, high);
    let low = number_in(at_low, 1, u64::from(nodes), low)? as u8;
    let high = number_in(at_high, 1, u64::from(nodes), high)? as u8;
    let weight = number_in(at_weight, 1, u64::from(MAX_WEIGHT), weight)? as u32;
    Ok(Edge {
        low: NodeId(low),
        high: NodeId(high),
        weight,
    })
}

/// The number that a field says, from `low` to `high`.
fn number_in(place: At, low: u64, high: u64, word: &[u8]) -> Result<u64, GraphRefused>
    ensures field { IsField place low high word.now result }
    ensures within { IfOk result (λ n. (low ≤ n) × (n ≤ high)) }
{
    let Some(n) = number(word) else {
        return Err(GraphRefused::Text(TextRefused::BadNumber(place)));
    };
    if n < low || high < n {
        return Err(GraphRefused::Range { line: place.line });
    }
    Ok(n)
}

/// The place of the word after this one.
fn after(place: At, word: &[u8]) -> At
    ensures { result ≡ record { line = place.line; column = column_after place.column word.now } }
{
    let column = u64::from(place.column) + word.len() as u64 + 1;
    At {
        line: place.line,
        column: column.min(u64::from(u32::MAX)) as u32,
    }
}
