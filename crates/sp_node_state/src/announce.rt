// A life of a node begins: with epochs it signs an Epoch object, which says its boot to all, and holds it.
ghost use Rattle.std.specs.Prelude.{◌≡◌, [], ◌∷◌, IfErr, IfOk, OnErr, if◌then◌else◌, true};
ghost use Rattle.laws_node.specs.Nodes.{IsKept, SignerHolds};
ghost use Rattle.sp_base.specs.Spelling.{AreBytes};
ghost use Rattle.sp_node_format.specs.Format.{format_of};
ghost use Rattle.sp_node_state.specs.Boots.{Announces, IsBootable, started_of, told_at_start};
ghost use Rattle.sp_rules.specs.Node.{announced, own_epoch, start_effects};
ghost use Rattle.sp_rules.specs.Sends.{signed_effect};

use crate::boot::NodeConfig;
use crate::state::State;
use sp_base::Memory;
use sp_msg::{Body, Effect, Effects, Epoch};
use sp_rules::{NodeRefused, Step};
use sp_sign::{Blank, NodeSigner};
use std::alloc::Global;

impl State {
    /// A node at the start of a life, and what its start causes. Only want of memory refuses.
    pub fn start(
        alloc: Global,
        config: NodeConfig,
        signer: NodeSigner,
        boot: u64,
    ) -> Result<Step<State>, NodeRefused>
        requires { IsBootable config signer boot }
        ensures state { IfOk result (λ step. step.reply ≡ started_of config signer boot) }
        ensures signer { IfOk result (λ step. SignerHolds step.reply.signer) }
        ensures document { IfOk result (λ step. AreBytes step.reply.live.document) }
        ensures told { IfOk result (λ step. step.effects.list ≡ told_at_start config boot) }
        ensures memory { IfErr result (λ refused. refused ≡ NodeRefused.Memory) }
    {
        let mut state = State::boot(alloc, config, signer, boot)?;
        match state.begin(alloc) {
            Ok(effects) => Ok(Step {
                reply: state,
                effects,
            }),
            Err(memory) => {
                drop(state);
                Err(NodeRefused::from(memory))
            }
        }
    }

    /// With epochs it signs the boot of this life, and holds it. Only want of memory refuses.
    fn begin(&mut self, alloc: Global) -> Result<Effects, Memory>
        requires kept { IsKept (format_of self.old.fixed) self.old }
        requires announces { self.old.fixed.epochs ≡ true → Announces self.old.fixed.topology self.old.signer }
        ensures state { IfOk result (λ _. self.new ≡ (if self.old.fixed.epochs then announced (format_of self.old.fixed) self.old else self.old)) }
        ensures told { IfOk result (λ effects. effects.list ≡ start_effects (format_of self.old.fixed) self.old.fixed) }
    {
        if self.fixed.epochs {
            self.announce(alloc)
        } else {
            no_effects(alloc)
        }
    }

    /// Signs the boot of this life, and holds it. Only want of memory refuses, and then nothing has changed.
    fn announce(&mut self, alloc: Global) -> Result<Effects, Memory>
        requires kept { IsKept (format_of self.old.fixed) self.old }
        requires announces { Announces self.old.fixed.topology self.old.signer }
        ensures state { IfOk result (λ _. self.new ≡ announced (format_of self.old.fixed) self.old) }
        ensures told { IfOk result (λ effects. effects.list ≡ signed_effect (format_of self.old.fixed) (own_epoch self.old.fixed) ∷ []) }
        ensures as_before { OnErr result (self.new ≡ self.old) }
    {
        let body = Body::Epoch(Epoch {
            origin: self.fixed.me,
            boot: self.fixed.boot,
        });
        let blank = self.blank(alloc, body)?;
        let Ok(mut effects) = Effects::with_room(alloc, 1) else {
            return Err(Memory);
        };
        let Blank { kept, bytes } = self.sign(blank);
        effects.push(Effect::Signed(bytes));
        self.core.lives.hold(kept);
        Ok(effects)
    }
}

/// Nothing was caused. It takes no memory.
fn no_effects(alloc: Global) -> Result<Effects, Memory>
    ensures { IfOk result (λ effects. effects.list ≡ []) }
{
    match Effects::with_room(alloc, 0) {
        Ok(effects) => Ok(effects),
        Err(_) => Err(Memory),
    }
}
