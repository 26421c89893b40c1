// Random graphs: `check` is true of each answer, and false after it was moved.
use crate::asked::{ask, graph_of, next};
use sp_base::NodeId;
use std::alloc::Global;
use std::process::Abort;
use std::test::Fail;

/// How many graphs.
const GRAPHS: u32 = 2_000;

/// The lines of some of the edges from the node to higher ones.
fn edges_from(
    alloc: Global,
    text: &mut String,
    low: u32,
    nodes: u32,
    seed: &mut u64,
) -> Result<(), Fail> {
    let share = next(seed, 8);
    for high in low.saturating_add(1)..nodes.saturating_add(1) {
        if next(seed, 8) <= share {
            let weight = next(seed, 60).saturating_add(1);
            let line = format!(in alloc; "edge {low} {high} {weight}\n")?;
            text.push_str(line.as_str())?;
        }
    }
    Ok(())
}

/// The text of a graph of so many nodes.
fn random_text(alloc: Global, nodes: u32, seed: &mut u64) -> Result<String, Fail> {
    let mut text = format!(in alloc; "graph 1\nnodes {nodes}\n")?;
    for low in 1..nodes {
        edges_from(alloc, &mut text, low, nodes, seed)?;
    }
    text.push_str("end\n")?;
    Ok(text)
}

/// One random graph, two of its nodes, and some number of paths.
fn turn(rt: &(impl Abort + AllocGlobal), seed: &mut u64) -> Result<bool, Fail> {
    let nodes = next(seed, 15).saturating_add(2);
    let text = random_text(rt.alloc(), nodes, seed)?;
    let graph = graph_of(rt.alloc(), text.as_str())?;
    let s = next(seed, nodes);
    let t = s
        .wrapping_add(1)
        .wrapping_add(next(seed, nodes.wrapping_sub(1)))
        % nodes.max(1);
    let k = (next(seed, 8) % 8) as u8 + 1;
    let from = NodeId((s % 16) as u8 + 1);
    let to = NodeId((t % 16) as u8 + 1);
    ask(rt, &graph, from, to, k, seed)
}

#[test]
fn each_answer_is_accepted_and_none_that_was_moved(rt: HostRuntime) -> Result<(), Fail> {
    let mut seed = 1;
    let mut found = 0u32;
    for _ in 0..GRAPHS {
        if turn(&rt, &mut seed)? {
            found = found.saturating_add(1);
        }
    }
    assert!(rt; found > 500, "{found}");
    Ok(())
}
