// A node that clients speak to.
ghost use Rattle.std.specs.Prelude.{◌≡◌};
ghost use Rattle.sp_client_node.specs.Kept.{Keeps};
ghost use Rattle.sp_client_node.specs.Steps.{AnswersBy, may_come_on_paths};

use sp_base::{Bytes, NodeId};
use sp_client::{BadEnd, Local, SendRefused};
use sp_msg::Effects;
use sp_node::Node;
use sp_rules::{Entry, KSend, PrioSend, Step};
use std::alloc::Global;

/// A node, and what the last send of a client caused there: none where it was refused.
#[derive(Drop)]
pub struct LocalNode {
    pub node: Node,
    pub effects: Option<Effects>,
}

/// Keeps aside what a send caused, and gives its number.
fn keep(
    effects: &mut Option<Effects>,
    call: Result<Step<u64>, SendRefused>,
) -> Result<u64, SendRefused>
    ensures { Keeps effects.old call result effects.new }
{
    match call {
        Ok(step) => {
            *effects = Some(step.effects);
            Ok(step.reply)
        }
        Err(SendRefused::Memory) => Err(SendRefused::Memory),
        Err(refused) => {
            *effects = None;
            Err(refused)
        }
    }
}

/// Whether messages on paths may come from a node: from each other one, but under format 1.
fn may_come_on_paths(node: &Node, src: NodeId) -> bool
    ensures { result ≡ may_come_on_paths node.entry.now.state src }
{
    node.has_paths() && node.is_other(src)
}

impl Local for LocalNode {
    ghost steps = { λ old command answer new. AnswersBy old command answer new };

    fn send_rel(&mut self, alloc: Global, dst: NodeId, payload: &[u8]) -> Result<u64, SendRefused> {
        let call = self.node.send_rel(alloc, dst, payload);
        keep(&mut self.effects, call)
    }

    fn send_prio(&mut self, alloc: Global, message: &PrioSend<'_>) -> Result<u64, SendRefused> {
        let call = self.node.send_prio(alloc, message);
        keep(&mut self.effects, call)
    }

    fn send_krel(&mut self, alloc: Global, message: &KSend<'_>) -> Result<u64, SendRefused> {
        let call = self.node.send_krel(alloc, message);
        keep(&mut self.effects, call)
    }

    fn take_rel(&mut self, src: NodeId) -> Result<Option<Bytes>, BadEnd> {
        self.node.is_kept();
        if !self.node.is_other(src) {
            return Err(BadEnd);
        }
        Ok(self.node.take_rel(src))
    }

    fn take_krel(&mut self, src: NodeId) -> Result<Option<Bytes>, BadEnd> {
        self.node.is_kept();
        if !may_come_on_paths(&self.node, src) {
            return Err(BadEnd);
        }
        Ok(self.node.take_krel(src))
    }

    fn take_prio(&mut self) -> Option<Entry> {
        self.node.is_kept();
        self.node.take_prio()
    }

    fn set_weight(&mut self, alloc: Global, peer: NodeId, weight: u32) -> Result<u64, SendRefused> {
        let call = self.node.set_weight(alloc, peer, weight);
        keep(&mut self.effects, call)
    }
}
