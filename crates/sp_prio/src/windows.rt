// The windows of all nodes, each in the place of its node.
ghost use Rattle.std.specs.Prelude.{◌≡◌, ◌<◌, IfOk, IfSome, [], length, replicate};
ghost use Rattle.sp_rules.specs.Prio.{is_node, place_of, window_at, windows_less, windows_with};
ghost use Rattle.sp_rules.specs.Window.{is_seen};

use sp_base::{Memory, NodeId};
use sp_dedup::Window;
use std::alloc::Global;

/// So many windows of which none has a mark.
pub fn windows_of(alloc: Global, count: usize) -> Result<Vec<Window>, Memory>
    ensures { IfOk result (λ windows. windows.items ≡ replicate count []) }
{
    let mut windows = Vec::with_capacity(alloc, count)?;
    'windows: for _ in 0..count {
        windows.push(Window::new())?;
    }
    Ok(windows)
}

/// Whether this is the id of a node.
pub fn is_node(nodes: &[NodeId], id: u8) -> bool
    ensures { result ≡ is_node nodes.now id }
{
    nodes.iter().any(|node| node.0 == id)
}

/// The place of a node.
fn place_of(nodes: &[NodeId], id: u8) -> Option<usize>
    ensures place { result ≡ place_of nodes.now id }
    ensures within { IfSome result (λ place. place < length nodes.now) }
{
    nodes.iter().position(|node| node.0 == id)
}

/// Whether a number of a source counts as seen.
pub fn seen_in(windows: &[Window], nodes: &[NodeId], src: u8, seq: u64) -> bool
    requires { length windows.now ≡ length nodes.now }
    ensures { result ≡ is_seen (window_at windows.now (place_of nodes.now src)) seq }
{
    match place_of(nodes, src) {
        Some(place) => windows[place].seen(seq),
        None => false,
    }
}

/// Marks a number of a source as seen, where the source is a node.
pub fn mark(windows: &mut [Window], nodes: &[NodeId], src: u8, seq: u64)
    requires { length windows.old ≡ length nodes.now }
    ensures { windows.new ≡ windows_with windows.old (place_of nodes.now src) seq }
{
    if let Some(place) = place_of(nodes, src) {
        let _ = windows[place].first(seq);
    }
}

/// No number of a source was seen, where the source is a node. It takes no memory.
pub fn clear(windows: &mut [Window], nodes: &[NodeId], src: u8)
    requires { length windows.old ≡ length nodes.now }
    ensures { windows.new ≡ windows_less windows.old (place_of nodes.now src) }
{
    if let Some(place) = place_of(nodes, src) {
        windows[place].clear();
    }
}
