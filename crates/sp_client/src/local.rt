// The node that clients speak to, as the sessions see it: seven calls, each of which is a step of a relation that the node names.
ghost use Rattle.std.specs.Prelude.{◌≡◌, ◌≤◌, IfErr, IfOk, IfSome, length, true};
ghost use Rattle.sp_base.specs.declared.limits.TheConstants.{MAX_PAYLOAD_BYTES};
ghost use Rattle.sp_client.specs.Requests.{IsCommand};
ghost use Rattle.sp_client.specs.declared.request.Command.{Command};
ghost use Rattle.sp_client.specs.declared.request.Command.TheVariants as commands;
ghost use Rattle.sp_client.specs.declared.answer.Answer.{Answer};
ghost use Rattle.sp_client.specs.Locals.{IsPrioEntry, StepsBy, command_of, krel_command, may_refuse_krel, may_refuse_prio, may_refuse_rel};
ghost use Rattle.sp_client.specs.Locals.{may_refuse_weight, sent, took, took_prio};

use sp_base::{Bytes, NodeId};
use sp_msg::SendRefused;
use sp_rules::{Entry, KSend, PrioSend};
use std::alloc::Global;
use thiserror::Error;

/// The node named isn't another node.
#[derive(Clone, Copy, Debug, PartialEq, Eq, Error)]
#[error("the node isn't another node")]
pub struct BadEnd;

/// A node whose clients speak to it. After `Memory` it is as before.
pub trait Local {
    /// The steps that there may be: the state before, the command, its answer, and the state after.
    ghost steps: { Self → Command → Answer → Self → Type 0 };

    /// Sends a reliable message, and gives its number.
    fn send_rel(&mut self, alloc: Global, dst: NodeId, payload: &[u8]) -> Result<u64, SendRefused>
        requires { IsCommand (commands.Send dst payload.now) }
        ensures step { StepsBy steps self.old (commands.Send dst payload.now) (sent result) self.new }
        ensures own { IfErr result (λ e. may_refuse_rel e ≡ true) };

    /// Sends a priority message on so many paths, on all edges for 0, and gives its number.
    fn send_prio(&mut self, alloc: Global, message: &PrioSend<'_>) -> Result<u64, SendRefused>
        requires { IsCommand (command_of message.now) }
        ensures step { StepsBy steps self.old (command_of message.now) (sent result) self.new }
        ensures own { IfErr result (λ e. may_refuse_prio e ≡ true) };

    /// Sends a reliable message on so many paths, and gives its number.
    fn send_krel(&mut self, alloc: Global, message: &KSend<'_>) -> Result<u64, SendRefused>
        requires { IsCommand (krel_command message.now) }
        ensures step { StepsBy steps self.old (krel_command message.now) (sent result) self.new }
        ensures own { IfErr result (λ e. may_refuse_krel e ≡ true) };

    /// Takes the oldest reliable message from a node. None exactly where none waits.
    fn take_rel(&mut self, src: NodeId) -> Result<Option<Bytes>, BadEnd>
        ensures step { steps self.old (commands.Take src) (took result) self.new }
        ensures size { IfOk result (λ o. IfSome o (λ payload. length payload ≤ MAX_PAYLOAD_BYTES)) };

    /// Takes the oldest reliable message on paths from a node. None exactly where none waits.
    fn take_krel(&mut self, src: NodeId) -> Result<Option<Bytes>, BadEnd>
        ensures step { steps self.old (commands.TakeKrel src) (took result) self.new }
        ensures size { IfOk result (λ o. IfSome o (λ payload. length payload ≤ MAX_PAYLOAD_BYTES)) };

    /// Takes the oldest priority message. None exactly where none waits.
    fn take_prio(&mut self) -> Option<Entry>
        ensures step { steps self.old commands.TakePrio (took_prio result) self.new }
        ensures range { IfSome result IsPrioEntry };

    /// Sets the weight of the link to a neighbour, and gives the number of the update.
    fn set_weight(&mut self, alloc: Global, peer: NodeId, weight: u32) -> Result<u64, SendRefused>
        requires { IsCommand (commands.Weight peer weight) }
        ensures step { StepsBy steps self.old (commands.Weight peer weight) (sent result) self.new }
        ensures own { IfErr result (λ e. may_refuse_weight e ≡ true) };
}
