// One node, and all that may be asked of it.
ghost use Rattle.std.specs.Prelude.{◌≡◌, ◌≤◌, ◌<◌, ◌+◌, ◌^◌, IfErr, IfOk, IsOk, None as Nothing, length, true};
ghost use Rattle.laws_node.specs.Nodes.{IsKept};
ghost use Rattle.sp_base.specs.declared.limits.TheConstants.{MAX_PAYLOAD_BYTES, MAX_PRIORITY, MAX_WEIGHT};
ghost use Rattle.sp_node_format.specs.Format.{format_of};
ghost use Rattle.sp_paths.specs.declared.limits.TheConstants.{MAX_PATHS};
ghost use Rattle.sp_rules.specs.Node.{extended, link_in};
ghost use Rattle.sp_rules.specs.Parts.{changes};
ghost use Rattle.sp_rules.specs.Prio.{expiring};
ghost use Rattle.sp_rules.specs.Rel.{position_in};
ghost use Rattle.sp_rules.specs.Lives.{held_boot};
ghost use Rattle.sp_rules.specs.Messages.{as_ksend, as_send};
ghost use Rattle.sp_rules.specs.Sends.{prio_refusal, rel_refusal, weight_refusal};
ghost use Rattle.sp_rules.specs.Steps.{SendKrel, SendPrio, SendRel, SetWeight};
ghost use Rattle.sp_rules.specs.KflowSends.{krel_refusal};
ghost use Rattle.sp_rules.specs.declared.kflow.FlowKind.{FlowKind};
ghost use Rattle.sp_rules.specs.Ticks.{due_now, time_after};
ghost use Rattle.sp_node_state.specs.Boots.{IsBootable, started_of, told_at_start};
ghost use Rattle.sp_frame.specs.declared.sections.TheConstants.{MOST_OBJECTS};
ghost use Rattle.sp_node.specs.Calls.{Datagrams, Polls, Publishes, TakesKrel, TakesPrio, TakesRel, Ticks};
ghost use Rattle.sp_node.specs.Life.{IsIdle, datagram_checks, datagram_tags};
ghost use Rattle.sp_node_state.specs.Publications.{document_checks};
ghost use Rattle.sp_node_state.specs.Sends.{Sends};
ghost use Rattle.sp_node_state.specs.States.{is_other};

use crate::checker::checker_for;
use crate::datagram::datagram;
use crate::poll::poll;
use crate::take::{take_krel, take_prio, take_rel};
use crate::tick::tick;
use sp_base::{Bytes, Flow, NodeId};
use sp_msg::SendRefused;
use sp_node_state::{NodeConfig, State, send_krel, send_prio, send_rel, set_weight};
use sp_routes::PathBook;
use sp_rules::{DocumentAnswer, Entry, KSend, NodeRefused, PrioSend, Step, Taken, TickReply};
use sp_sign::{Checker, NodeSigner};
use std::alloc::Global;
use std::marker::Model;

/// A node in one of its lives. A contract sees what the rules see of it (`sp_rules`), and each call is a step of theirs.
///
/// After any calls it keeps at most as many messages of each flow and entries of each store as its own bounds say, each in its ranges and with
/// its signer's valid signature. That these bounds stay those of `boot` is a law of each step (`laws_node`).
#[derive(Drop)]
pub struct Node {
    state: State,
    checker: Checker,
    /// The paths of what was sent before, until the weights in effect change.
    book: PathBook,
    /// How many tags were checked.
    tags: u64,
}

impl Model for Node {
    ghost use Rattle.sp_node.specs.Life.{IsLife, Life};

    ghost Value = { Life };

    ghost view = { λ n. record { state = n.state; checks = n.checker.checks; tags = n.tags } };

    ghost invariant = { λ n. IsLife n.state n.checker.nodes };
}

impl Node {
    /// A node at the start of a life with this boot number, under a topology of either format, and what its start causes. `can_boot` says when a
    /// node may be booted. Only want of memory refuses.
    ///
    /// A boot number never comes again, and is above that of every life before: neighbours take frames of lower ones for stale. With epochs the
    /// node signs the boot of this life with its next index and holds it: the effects tell it.
    pub fn boot(
        alloc: Global,
        config: NodeConfig,
        signer: NodeSigner,
        boot: u64,
    ) -> Result<Step<Node>, NodeRefused>
        requires { IsBootable config signer boot }
        ensures node { IfOk result (λ step. step.reply ≡ record { state = started_of config signer boot; checks = 0; tags = 0 }) }
        ensures told { IfOk result (λ step. step.effects.list ≡ told_at_start config boot) }
        ensures memory { IfErr result (λ refused. refused ≡ NodeRefused.Memory) }
    {
        let Step {
            reply: state,
            effects,
        } = State::start(alloc, config, signer, boot)?;
        let checker = match checker_for(alloc, &state) {
            Ok(checker) => checker,
            Err(refused) => {
                drop(state);
                return Err(refused);
            }
        };
        let node = Node {
            state,
            checker,
            book: PathBook::new(alloc),
            tags: 0,
        };
        Ok(Step {
            reply: node,
            effects,
        })
    }

    /// The next frame to a neighbour, sealed for that link: what is next in turn of each part. Where the neighbour runs under an older version of the topology,
    /// as far as was heard, it is the document of this node's version instead, and where their edge is withdrawn it has no sections.
    ///
    /// `NotNeighbour` exactly where the other node isn't a neighbour, and else `Worn` exactly where the node has answered `MAX_CALLS` polls and
    /// datagrams.
    #[tactic(auto, using(crate::proofs::Steps::life_by_poll))]
    pub fn poll(&mut self, alloc: Global, v: NodeId) -> Result<Bytes, NodeRefused>
        ensures step { Polls self.old.state v result self.new.state }
        ensures work { IsIdle self.old self.new }
    {
        self.state.recall();
        poll(&mut self.state, alloc, v)
    }

    /// A datagram that came from a neighbour's address: what became of it at its link, and where it is fresh, the answers to its objects.
    ///
    /// `NotNeighbour` exactly where the other node isn't a neighbour, and else `Worn` exactly where the node has answered `MAX_CALLS` polls and
    /// datagrams. All memory is taken before anything changes.
    ///
    /// Its signatures are checked once for each object that may be new when its turn comes, and for no other: so none of a datagram that isn't
    /// fresh, nor of an object that is old, seen, expired, of a bad end or of another boot than the one that is held, and thirteen at most. That of a document
    /// is checked only where its version is above the own one. One tag is checked where the datagram is a frame that names the ends of its link, and none
    /// else.
    #[tactic(auto, using(crate::proofs::Steps::life_by_datagram))]
    pub fn datagram(
        &mut self,
        alloc: Global,
        from: NodeId,
        bytes: &[u8],
    ) -> Result<Step<Taken>, NodeRefused>
        ensures step { Datagrams self.old.state from bytes.now result self.new.state }
        ensures work { self.new.checks ≤ self.old.checks + datagram_checks self.old.state from bytes.now }
        ensures few { self.new.checks ≤ self.old.checks + MOST_OBJECTS }
        ensures tags { self.new.tags ≤ self.old.tags + datagram_tags self.old.state from bytes.now }
    {
        self.state.recall();
        datagram(
            &mut self.state,
            &mut self.checker,
            &mut self.tags,
            alloc,
            from,
            bytes,
        )
    }

    /// The time goes on to the greater of the one held and this one, what expired before it leaves, and at most two acknowledgements are signed: one of a plain
    /// flow, and then one of a flow on paths. The first that the signer refuses gives the reply.
    ///
    /// Only want of memory refuses. None is taken where nothing expires and no acknowledgement is due.
    #[tactic(auto, using(crate::proofs::Steps::life_by_tick))]
    pub fn tick(&mut self, alloc: Global, now: u64) -> Result<Step<TickReply>, NodeRefused>
        ensures step { Ticks self.old.state now result self.new.state }
        ensures quiet { ((kind : FlowKind) → due_now kind self.old.state ≡ Nothing)
            → expiring self.old.state.parts.prio (time_after self.old.state now) ≡ 0 → IsOk result }
        ensures work { IsIdle self.old self.new }
    {
        self.state.recall();
        tick(&mut self.state, alloc, now)
    }

    /// Signs a client's reliable message, and keeps it until its destination acknowledges it. Gives its number, counted from 1 in each flow.
    ///
    /// The first of these that applies: `BadEnd` where the destination isn't another node, where it or this node is removed, and where with epochs no life of
    /// it is known, `Full`,
    /// `Spent`, `NotReserved`.
    #[tactic(auto, using(crate::proofs::Steps::life_by_rel))]
    pub fn send_rel(
        &mut self,
        alloc: Global,
        dst: NodeId,
        payload: &[u8],
    ) -> Result<Step<u64>, SendRefused>
        requires { length payload.now ≤ MAX_PAYLOAD_BYTES }
        ensures step { Sends (SendRel dst payload.now) (rel_refusal self.old.state dst) self.old.state result self.new.state }
        ensures work { IsIdle self.old self.new }
    {
        self.state.recall();
        send_rel(&mut self.state, alloc, dst, payload)
    }

    /// Signs a client's priority message, which goes over so many paths that share no node, or over all edges where `paths` is 0. Gives its number,
    /// counted from 1 over all destinations. A priority is 1 to 10, and 10 goes first; the message is gone once the time is above `expiry`.
    ///
    /// The first of these that applies: `BadEnd` where the destination isn't another node, where it or this node is removed, and where with epochs no life of
    /// it is known, `Expired`,
    /// `Spent`, `NotReserved`, and `NoPaths` where there are fewer paths. `Memory` may come in place of the last.
    #[tactic(auto, using(crate::proofs::Steps::life_by_prio))]
    pub fn send_prio(
        &mut self,
        alloc: Global,
        message: &PrioSend<'_>,
    ) -> Result<Step<u64>, SendRefused>
        requires prio { (1 ≤ message.now.prio) × (message.now.prio ≤ MAX_PRIORITY) }
        requires few { message.now.paths ≤ MAX_PATHS }
        requires short { length message.now.payload.now ≤ MAX_PAYLOAD_BYTES }
        ensures step { Sends (SendPrio (as_send message.now)) (prio_refusal self.old.state (as_send message.now)) self.old.state result self.new.state }
        ensures work { IsIdle self.old self.new }
    {
        self.state.recall();
        recall_expiry(message);
        send_prio(&mut self.state, &mut self.book, alloc, message)
    }

    /// Signs a client's reliable message on so many paths that share no node, 1 to 8, and keeps it until its destination acknowledges it. Gives its number,
    /// counted from 1 in each flow. It goes only over the edges of its paths: those of the messages of its flow that wait, or where none waits the cheapest.
    ///
    /// The first of these that applies: `BadEnd` under format 1, and where `send_rel` says so, `Full`, `Busy` where messages wait that went on another number
    /// of paths, `Spent`, `NotReserved`, and `NoPaths` where none waits and there are fewer paths. `Memory` may come in place of the last.
    #[tactic(auto, using(crate::proofs::Steps::life_by_krel))]
    pub fn send_krel(
        &mut self,
        alloc: Global,
        message: &KSend<'_>,
    ) -> Result<Step<u64>, SendRefused>
        requires some { 1 ≤ message.now.paths }
        requires few { message.now.paths ≤ MAX_PATHS }
        requires short { length message.now.payload.now ≤ MAX_PAYLOAD_BYTES }
        ensures step { Sends (SendKrel (as_ksend message.now)) (krel_refusal self.old.state (as_ksend message.now)) self.old.state result self.new.state }
        ensures work { IsIdle self.old self.new }
    {
        self.state.recall();
        send_krel(&mut self.state, &mut self.book, alloc, message)
    }

    /// Signs what this node says of the weight of its link to a neighbour. Gives the number of the update.
    ///
    /// The first of these that applies: `BadEnd` where the peer isn't a neighbour or the edge to it is withdrawn, `Low`, `Spent`, `NotReserved`.
    #[tactic(auto, using(crate::proofs::Steps::life_by_weight))]
    pub fn set_weight(
        &mut self,
        alloc: Global,
        peer: NodeId,
        weight: u32,
    ) -> Result<Step<u64>, SendRefused>
        requires least { 1 ≤ weight }
        requires most { weight ≤ MAX_WEIGHT }
        ensures step { Sends (SetWeight peer weight) (weight_refusal self.old.state peer weight) self.old.state result self.new.state }
        ensures work { IsIdle self.old self.new }
    {
        self.state.recall();
        set_weight(&mut self.state, alloc, peer, weight)
    }

    /// The administrator hands over a document. The answer is `Bad` where the bytes are none, `Old` where its version is at most the own one, `BadSig` where
    /// its signature isn't the administrator's, `Strange` where it doesn't follow the topology as it is now, and else `Adopted`: from then on it is the
    /// node's topology, what waited for withdrawn edges leaves, and flows with a removed end end.
    ///
    /// Only want of memory refuses, and then nothing has changed. One signature is checked where the version is above the own one, and none else.
    pub fn replace(
        &mut self,
        alloc: Global,
        document: &[u8],
    ) -> Result<Step<DocumentAnswer>, NodeRefused>
        requires { changes self.old.state.fixed ≡ true }
        ensures step { Publishes self.old.state document.now result self.new.state }
        ensures work { self.new.checks ≤ self.old.checks + document_checks self.old.state document.now }
        ensures tags { self.new.tags ≡ self.old.tags }
    {
        self.state.recall();
        match self.state.publish(alloc, &mut self.checker, document) {
            Ok(step) => Ok(step),
            Err(memory) => Err(NodeRefused::from(memory)),
        }
    }

    /// Takes the payload of the oldest reliable message that waits here from a node. None exactly where none waits.
    #[tactic(auto, using(crate::proofs::Steps::life_by_take_rel))]
    pub fn take_rel(&mut self, src: NodeId) -> Option<Bytes>
        ensures step { TakesRel self.old.state src result self.new.state }
        ensures work { IsIdle self.old self.new }
    {
        self.state.recall();
        take_rel(&mut self.state, src)
    }

    /// Takes the payload of the oldest message on paths that waits here from a node. None exactly where none waits.
    #[tactic(auto, using(crate::proofs::Steps::life_by_take_krel))]
    pub fn take_krel(&mut self, src: NodeId) -> Option<Bytes>
        ensures step { TakesKrel self.old.state src result self.new.state }
        ensures work { IsIdle self.old self.new }
    {
        self.state.recall();
        take_krel(&mut self.state, src)
    }

    /// Takes the oldest priority message that waits here. None exactly where none waits. That its entry leaves place 0 is told by the entry.
    #[tactic(auto, using(crate::proofs::Steps::life_by_take_prio))]
    pub fn take_prio(&mut self) -> Option<Entry>
        ensures step { TakesPrio self.old.state result self.new.state }
        ensures work { IsIdle self.old self.new }
    {
        self.state.recall();
        take_prio(&mut self.state)
    }

    /// Whether this is another node of the overlay.
    pub fn is_other(&self, node: NodeId) -> bool
        ensures { result ≡ is_other self.entry.now.state node }
    {
        self.state.is_other(node)
    }

    /// What always holds of a node: what it keeps is within its bounds, in its ranges and signed.
    pub fn is_kept(&self)
        ensures { IsKept (format_of self.entry.now.state.fixed) self.entry.now.state }
    {
        let _state = &self.state;
    }

    /// Whether reliable messages may go on paths here. Under format 1 none does.
    pub fn has_paths(&self) -> bool
        ensures { result ≡ changes self.entry.now.state.fixed }
    {
        self.state.changes()
    }

    /// Reserves the indexes of the signer up to, and not with, `upto`.
    #[tactic(auto, using(crate::proofs::Steps::life_by_extend))]
    pub fn extend(&mut self, upto: u64)
        requires forward { self.old.state.signer.bound ≤ upto }
        requires within { upto ≤ self.old.state.signer.total }
        ensures step { self.new.state ≡ extended self.old.state upto }
        ensures work { IsIdle self.old self.new }
    {
        self.state.signer.extend(upto);
    }

    /// The index of the next signature. None below is used again.
    pub fn index(&self) -> u64
        ensures { result ≡ self.entry.now.state.signer.index }
    {
        self.state.signer.index()
    }

    /// The indexes below this one are reserved for the signer.
    pub fn bound(&self) -> u64
        ensures { result ≡ self.entry.now.state.signer.bound }
    {
        self.state.signer.bound()
    }

    /// How many messages the key may sign.
    pub fn total(&self) -> u64
        ensures { result ≡ self.entry.now.state.signer.total }
    {
        self.state.signer.total()
    }

    /// The version of the topology that the node runs under.
    pub fn version(&self) -> u32
        ensures { result ≡ self.entry.now.state.live.version }
    {
        self.state.live.version
    }

    /// The greatest time that a tick gave, in the unit of expiries. 0 before.
    pub fn now(&self) -> u64
        ensures { result ≡ self.entry.now.state.now }
    {
        self.state.now
    }

    /// The boot and the counter above which a frame of a neighbour is fresh: (0, 0) where it isn't a neighbour.
    #[tactic(auto, using(sp_base::proofs::RowLemmas::placed))]
    pub fn kept_pair(&self, v: NodeId) -> (u64, u64)
        ensures { result ≡ (link_in self.entry.now.state v).seen }
    {
        self.state.seen(v)
    }

    /// The boot that is held of a node, 0 where none is: of this node itself its own. Where nodes run without epochs it is 0 of all.
    pub fn held_boot(&self, node: NodeId) -> u64
        ensures { result ≡ held_boot self.entry.now.state.parts.lives node }
    {
        self.state.core.lives.held_boot(node)
    }

    /// Up to which number the messages of a flow are acknowledged, and up to which they are here. None exactly where the flow isn't active here.
    pub fn position(&self, flow: Flow) -> Option<(u64, u64)>
        ensures { result ≡ position_in self.entry.now.state.parts.rel.flows flow }
    {
        self.state.core.rel.position(flow)
    }
}

/// For the prover alone, it does nothing when it runs: the expiry of a message is a number of 64 bits.
fn recall_expiry(message: &PrioSend<'_>)
    ensures { message.now.expiry < 2 ^ 64 }
{
    let _expiry = message.expiry;
}
