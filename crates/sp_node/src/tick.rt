// A tick: the time goes on, what expired leaves, and the acknowledgements that are due are signed, of plain flows first.
ghost use Rattle.std.specs.Prelude.{◌≡◌, ◌≤◌, ◌+◌, ◌-◌, ◌++◌, IfOk, IsOk, [], None as Nothing, option_map};
ghost use Rattle.laws_node.specs.Nodes.{IsKept};
ghost use Rattle.sp_base.specs.Cursor.{or_else};
ghost use Rattle.sp_node_format.specs.Format.{format_of};
ghost use Rattle.sp_node_state.specs.ReadyStates.{later};
ghost use Rattle.sp_node.specs.Calls.{Ticks};
ghost use Rattle.sp_node.specs.Ready.{AreDue, IsDue, MaySign, first_reply, settled_both, told_both, told_of};
ghost use Rattle.sp_rules.specs.Kflow.{ack_body};
ghost use Rattle.sp_rules.specs.Parts.{flows_of};
ghost use Rattle.sp_rules.specs.Prio.{expired, expired_effects, expiring};
ghost use Rattle.sp_rules.specs.Rel.{due};
ghost use Rattle.sp_rules.specs.Sends.{signer_refusal};
ghost use Rattle.sp_rules.specs.Ticks.{ack_effects, dated, due_now, refused_where, reply_of, settled_by, time_after};
ghost use Rattle.sp_rules.specs.Told.{told};
ghost use Rattle.sp_rules.specs.declared.kflow.FlowKind.{FlowKind};

use sp_base::Memory;
use sp_lives::Lives;
use sp_msg::{Ack, Body, Effect, Effects, Kack, SendRefused};
use sp_node_parts::Parts;
use sp_node_state::State;
use sp_rules::{FlowKind, NodeRefused, Step, TickReply};
use sp_sign::Blank;
use std::alloc::Global;

/// The acknowledgement of a kind of flows that is due at a tick.
#[derive(Debug, Drop)]
pub enum Due {
    /// None is due.
    Nothing,
    /// One is due, and the signer refuses it.
    Refused(TickReply),
    /// This one is due, and has the memory for its signature.
    Ready(Blank),
}

/// What is due at a tick: of plain flows, and then of flows on paths.
#[derive(Debug, Drop)]
pub struct Dues {
    pub plain: Due,
    pub paths: Due,
}

/// The time is the greater of the one held and this one. What expired before it leaves, and the acknowledgements that are due are signed. All memory is taken
/// before the first signature.
#[tactic(auto, using(crate::proofs::Dues::due_at_time))]
pub fn tick(state: &mut State, alloc: Global, now: u64) -> Result<Step<TickReply>, NodeRefused>
    requires { IsKept (format_of state.old.fixed) state.old }
    ensures step { Ticks state.old now result state.new }
    ensures quiet { ((kind : FlowKind) → due_now kind state.old ≡ Nothing) → expiring state.old.parts.prio (time_after state.old now) ≡ 0 → IsOk result }
{
    let dues = owed(state, alloc)?;
    let time = state.now.max(now);
    let mut effects = room_for(state, alloc, time, &dues)?;
    state.now = time;
    expire(&mut state.core, time, &mut effects);
    let reply = settle_both(state, dues, &mut effects);
    Ok(Step { reply, effects })
}

/// What is due.
#[tactic(auto, using(crate::proofs::Dues::none_signed, crate::proofs::Dues::one_signed, crate::proofs::Dues::both_due))]
fn owed(state: &State, alloc: Global) -> Result<Dues, Memory>
    requires { IsKept (format_of state.now.fixed) state.now }
    ensures owed { IfOk result (AreDue state.entry.now) }
    ensures none { ((kind : FlowKind) → due_now kind state.entry.now ≡ Nothing) → IsOk result }
{
    let plain = owed_of(state, alloc, FlowKind::Plain, 0)?;
    let used = told_of(&plain) as u64;
    let paths = owed_of(state, alloc, FlowKind::Paths, used)?;
    Ok(Dues { plain, paths })
}

/// The acknowledgement of a kind of flows that is due, after so many signatures of this tick.
#[tactic(auto, using(crate::proofs::Dues::index_low, crate::proofs::Dues::free_now))]
fn owed_of(state: &State, alloc: Global, kind: FlowKind, used: u64) -> Result<Due, Memory>
    requires kept { IsKept (format_of state.now.fixed) state.now }
    requires used { MaySign used state.now }
    ensures owed { IfOk result (IsDue kind (later used state.entry.now)) }
    ensures none { due_now kind state.entry.now ≡ Nothing → IsOk result }
{
    let Some(ack) = due_of(&state.core, kind) else {
        return Ok(Due::Nothing);
    };
    match state.refusal_after(used) {
        Some(SendRefused::Spent { index }) => Ok(Due::Refused(TickReply::TickSpent { index })),
        Some(SendRefused::NotReserved { bound }) => {
            Ok(Due::Refused(TickReply::TickNotReserved { bound }))
        }
        Some(_) => Ok(Due::Refused(TickReply::Ticked)),
        None => Ok(Due::Ready(state.blank(alloc, ack_body(kind, ack))?)),
    }
}

/// Room for all that a tick at this time tells. It takes no memory where that is nothing.
fn room_for(state: &State, alloc: Global, time: u64, dues: &Dues) -> Result<Effects, Memory>
    ensures room { IfOk result (λ effects. effects ≡ record { list = []; room = expiring state.entry.now.parts.prio time + told_both dues.now }) }
    ensures none { expiring state.entry.now.parts.prio time + told_both dues.now ≡ 0 → IsOk result }
{
    let told = told_of(&dues.plain) + told_of(&dues.paths);
    let Some(room) = state.core.prio.expiring(time).checked_add(told) else {
        return Err(Memory);
    };
    match Effects::with_room(alloc, room) {
        Ok(effects) => Ok(effects),
        Err(_) => Err(Memory),
    }
}

/// How many effects what is due will tell.
fn told_of(owed: &Due) -> usize
    ensures { result ≡ told_of owed.now }
{
    match owed {
        Due::Ready(_) => 1,
        _ => 0,
    }
}

/// Signs what is due, where it is ready, of plain flows first.
#[tactic(auto, using(crate::proofs::Dues::room_second, crate::proofs::Dues::second_state, crate::proofs::Dues::second_reply))]
fn settle_both(state: &mut State, dues: Dues, effects: &mut Effects) -> TickReply
    requires dues { AreDue state.old dues }
    requires room { told_both dues ≤ effects.old.room }
    ensures reply { result ≡ reply_of (or_else (refused_where (due_now FlowKind.Plain state.old) (signer_refusal state.old.signer))
        (refused_where (due_now FlowKind.Paths state.old) (signer_refusal (settled_both (format_of state.old.fixed) state.old).0.signer))) }
    ensures state { state.new ≡ (settled_both (format_of state.old.fixed) state.old).1 }
    ensures told { effects.new ≡ told effects.old (ack_effects (format_of state.old.fixed) FlowKind.Plain (due_now FlowKind.Plain state.old)
        (signer_refusal state.old.signer) ++ ack_effects (format_of state.old.fixed) FlowKind.Paths (due_now FlowKind.Paths state.old)
        (signer_refusal (settled_both (format_of state.old.fixed) state.old).0.signer)) }
{
    let Dues { plain, paths } = dues;
    let plain = settle(state, FlowKind::Plain, plain, effects);
    let paths = settle(state, FlowKind::Paths, paths, effects);
    first_reply(plain, paths)
}

/// Signs the acknowledgement of a kind of flows that is due, where it is ready.
#[tactic(auto, using(crate::proofs::Dues::owed_by))]
fn settle(state: &mut State, kind: FlowKind, owed: Due, effects: &mut Effects) -> TickReply
    requires owed { IsDue kind state.old owed }
    requires room { told_of owed ≤ effects.old.room }
    ensures reply { result ≡ reply_of (refused_where (due_now kind state.old) (signer_refusal state.old.signer)) }
    ensures state { state.new ≡ settled_by (format_of state.old.fixed) kind state.old (due_now kind state.old) (signer_refusal state.old.signer) }
    ensures told { effects.new ≡ told effects.old
        (ack_effects (format_of state.old.fixed) kind (due_now kind state.old) (signer_refusal state.old.signer)) }
{
    match owed {
        Due::Nothing => TickReply::Ticked,
        Due::Refused(reply) => reply,
        Due::Ready(blank) => {
            let Blank { kept, bytes } = state.sign(blank);
            effects.push(Effect::Signed(bytes));
            state.core.signed(kind, kept);
            TickReply::Ticked
        }
    }
}

/// The reply by the first refusal.
fn first_reply(plain: TickReply, paths: TickReply) -> TickReply
    ensures { result ≡ first_reply plain paths }
{
    match plain {
        TickReply::Ticked => paths,
        _ => plain,
    }
}

/// The acknowledgement of a kind of flows that is due, under the boots that are held of its ends.
fn due_of(core: &Parts, kind: FlowKind) -> Option<Ack>
    ensures { result ≡ option_map (dated core.now.lives) (due (flows_of kind core.now)) }
{
    match core.flows(kind).due() {
        Some(ack) => Some(dated(ack, &core.lives)),
        None => None,
    }
}

/// An acknowledgement of a flow of this kind.
fn ack_body(kind: FlowKind, ack: Ack) -> Body
    ensures { result ≡ ack_body kind ack }
{
    match kind {
        FlowKind::Plain => Body::Ack(ack),
        FlowKind::Paths => Body::Kack(Kack {
            src: ack.src,
            dst: ack.dst,
            sboot: ack.sboot,
            dboot: ack.dboot,
            seq: ack.seq,
        }),
    }
}

/// An acknowledgement under the boots that are held of its ends.
fn dated(ack: Ack, lives: &Lives) -> Ack
    ensures { result ≡ dated lives.now ack }
{
    Ack {
        sboot: lives.held_boot(ack.src),
        dboot: lives.held_boot(ack.dst),
        ..ack
    }
}

/// What expired before this time leaves.
#[tactic(auto, using(crate::proofs::Expired::expired_length))]
fn expire(core: &mut Parts, time: u64, effects: &mut Effects)
    requires { expiring core.old.prio time ≤ effects.old.room }
    ensures core { core.new ≡ record core.old { prio = expired core.old.prio time } }
    ensures list { effects.new.list ≡ effects.old.list ++ expired_effects core.old.prio time }
    ensures room { effects.new.room ≡ effects.old.room - expiring core.old.prio time }
{
    core.prio.expire(time, effects);
}
