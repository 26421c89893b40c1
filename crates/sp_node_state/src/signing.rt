// Signing the messages of this node: memory first, and then the signature of the next index.
ghost use Rattle.std.specs.Prelude.{ℕ, ◌≡◌, ◌<◌, ◌+◌, ◌^◌, IfOk, None as Nothing};
ghost use Rattle.sp_node_format.specs.Format.{format_of};
ghost use Rattle.sp_msg.specs.Bodies.{HasGoodFieldsIn, encoded_in};
ghost use Rattle.sp_msg.specs.Views.{signer_of};
ghost use Rattle.sp_node_state.specs.ReadyStates.{IsReadyBlank, later};
ghost use Rattle.sp_rules.specs.Node.{signed_now, signed_once};
ghost use Rattle.sp_rules.specs.Sends.{signer_refusal};

use crate::state::State;
use sp_base::Memory;
use sp_msg::{Body, SendRefused};
use sp_sign::Blank;
use std::alloc::Global;

impl State {
    /// Why the signer signs nothing now. None exactly where it does.
    pub fn signer_refusal(&self) -> Option<SendRefused>
        ensures { result ≡ signer_refusal self.entry.now.signer }
    {
        self.refusal_at(self.signer.index())
    }

    /// Why the signer signs nothing after so many more signatures.
    pub fn refusal_after(&self, used: u64) -> Option<SendRefused>
        requires { self.now.signer.index + used < 2 ^ 64 }
        ensures { result ≡ signer_refusal (later used self.entry.now).signer }
    {
        self.refusal_at(self.signer.index() + used)
    }

    /// Why the signer signs nothing with this index.
    fn refusal_at(&self, index: u64) -> Option<SendRefused>
        ensures { result ≡ signer_refusal (record self.entry.now.signer { index = index }) }
    {
        let bound = self.signer.bound();
        if index == self.signer.total() {
            return Some(SendRefused::Spent { index });
        }
        if index == bound {
            return Some(SendRefused::NotReserved { bound });
        }
        None
    }

    /// A message of this node with the memory for its signature, now or after some more signatures.
    pub fn blank(&self, alloc: Global, body: Body) -> Result<Blank, Memory>
        requires free { signer_refusal self.now.signer ≡ Nothing }
        requires mine { signer_of body ≡ self.now.fixed.me }
        requires fields { HasGoodFieldsIn self.now.fixed.topology.format body }
        ensures ready { IfOk result (IsReadyBlank self.entry.now) }
        ensures later { (used : ℕ) → signer_refusal (later used self.entry.now).signer ≡ Nothing → IfOk result (IsReadyBlank (later used self.entry.now)) }
        ensures body { IfOk result (λ blank. blank.kept.body ≡ body) }
    {
        let format = self.fixed.topology.format;
        match self.signer.blank_in(alloc, body, format) {
            Ok(blank) => Ok(blank),
            Err(_) => Err(Memory),
        }
    }

    /// The message with the signature of the next index, which is used then.
    pub fn sign(&mut self, blank: Blank) -> Blank
        requires { IsReadyBlank self.old blank }
        ensures kept { result.kept ≡ signed_now (format_of self.old.fixed) self.old blank.kept.body }
        ensures bytes { result.bytes ≡ encoded_in self.old.fixed.topology.format blank.kept.body }
        ensures state { self.new ≡ signed_once self.old self.old.parts }
    {
        let mut blank = blank;
        let Ok(()) = self.signer.sign(&mut blank) else {
            unreachable!()
        };
        blank
    }
}
