// A wire in memory: it holds what its receives give, fails at planned calls, and tells its calls.
ghost use Rattle.std.specs.Prelude.{◌≡◌, ◌≤◌, ◌∷◌, ◌+◌, ◌-◌, ◌^◌, ◌⊎◌, [], Some, OnOk, IfOk, IfNone, IfSome, IsErr, Ok, drop, length, min, take, true, false};
ghost use Rattle.sp_outside.specs.declared.wire.TheConstants.{DATAGRAM_BYTES};
ghost use Rattle.sp_outside.specs.Calls.{Came, Opened, Received, Sent, Tells, got_of, is_done};
ghost use Rattle.sp_outside.specs.Causes.{HasCause};
ghost use Rattle.sp_outside.specs.Kept.{Takes, WentMute, call_by, call_of, got_from, next_in, of_side, told_by};
ghost use Rattle.sp_outside.specs.Plans.{is_planned};

use crate::calls::{Coming, Kept, Way, WirePlan};
use crate::wire::{DATAGRAM_BYTES, Wire};
use crate::{Failed, Side};
use std::alloc::{AllocError, Global};

/// Datagrams that come on each side, in order: an item of a list is what one receive gives, and nothing comes after its end. A call
/// fails where that is planned, and where no memory is left for what it has to keep; from then on the wire tells nothing.
#[derive(Drop)]
pub struct MemoryWire<'a> {
    alloc: Global,
    overlay: &'a [Option<Coming<'a>>],
    client: &'a [Option<Coming<'a>>],
    plan: WirePlan<'a>,
    opens: u64,
    receives: u64,
    sends: u64,
    failed_opens: u64,
    faults: u64,
    calls: Vec<Kept>,
    is_mute: bool,
}

impl<'a> MemoryWire<'a> {
    /// What comes on each side, and which calls fail.
    pub fn new(
        alloc: Global,
        overlay: &'a [Option<Coming<'a>>],
        client: &'a [Option<Coming<'a>>],
        plan: WirePlan<'a>,
    ) -> Self
        ensures lists { (result.overlay.now ≡ overlay.now) × (result.client.now ≡ client.now) }
        ensures plan { result.plan ≡ plan.entry }
        ensures begins { (result.opens ≡ 0) × (result.receives ≡ 0) × (result.sends ≡ 0) }
        ensures faultless { (result.failed_opens ≡ 0) × (result.faults ≡ 0) }
        ensures told { told_by result.is_mute result.calls.items ≡ Some [] }
    {
        MemoryWire {
            alloc,
            overlay,
            client,
            plan,
            opens: 0,
            receives: 0,
            sends: 0,
            failed_opens: 0,
            faults: 0,
            calls: Vec::new(alloc),
            is_mute: false,
        }
    }

    /// A wire on which nothing ever comes, and no call is planned to fail.
    pub fn silent(alloc: Global) -> Self
        ensures lists { (result.overlay.now ≡ []) × (result.client.now ≡ []) }
        ensures plan { (result.plan.opens.now ≡ []) × (result.plan.receives.now ≡ []) × (result.plan.sends.now ≡ []) }
        ensures faultless { (result.failed_opens ≡ 0) × (result.faults ≡ 0) }
        ensures told { told_by result.is_mute result.calls.items ≡ Some [] }
    {
        MemoryWire::new(alloc, &[], &[], WirePlan::none())
    }
}

/// The next of a list, which is taken.
fn next_of<'a>(list: &mut &'a [Option<Coming<'a>>]) -> Option<Coming<'a>>
    ensures next { result ≡ next_in list.old.now }
    ensures rest { list.new.now ≡ drop 1 list.old.now }
{
    match *list {
        [first, rest @ ..] => {
            *list = rest;
            *first
        }
        [] => None,
    }
}

/// The next of a side, which is taken.
fn next_of_side<'a>(
    side: Side,
    overlay: &mut &'a [Option<Coming<'a>>],
    client: &mut &'a [Option<Coming<'a>>],
) -> Option<Coming<'a>>
    ensures next { result ≡ next_in (of_side side overlay.old.now client.old.now) }
    ensures taken { Takes side overlay.old.now client.old.now overlay.new.now client.new.now }
{
    match side {
        Side::Overlay => next_of(overlay),
        Side::Client => next_of(client),
    }
}

/// Whether the next call of a kind is planned to fail. It is counted.
pub(crate) fn is_planned(failing: &[u64], calls: &mut u64) -> bool
    ensures planned { result ≡ is_planned failing.now calls.old }
    ensures counted { calls.new ≡ min (calls.old + 1) (2 ^ 64 - 1) }
{
    let fails = failing.contains(calls);
    *calls = calls.saturating_add(1);
    fails
}

/// Keeps a call, and says whether memory sufficed for it. A mute wire keeps nothing.
fn keep(calls: &mut Vec<Kept>, is_mute: &mut bool, call: Kept) -> bool
    ensures kept { result ≡ true → Tells (told_by is_mute.old calls.old.items) (told_by is_mute.new calls.new.items)
        (call_of call ∷ []) }
    ensures still { result ≡ true → is_mute.new ≡ is_mute.old }
    ensures mute { result ≡ false → WentMute is_mute.old is_mute.new }
{
    if *is_mute {
        return true;
    }
    *is_mute = calls.push(call).is_err();
    !*is_mute
}

/// Keeps a datagram that went this way.
fn keep_datagram(
    alloc: Global,
    calls: &mut Vec<Kept>,
    is_mute: &mut bool,
    way: Way,
    side: Side,
    port: u16,
    bytes: &[u8],
) -> bool
    ensures kept { result ≡ true → Tells (told_by is_mute.old calls.old.items) (told_by is_mute.new calls.new.items)
        (call_by way side port bytes.now ∷ []) }
    ensures still { result ≡ true → is_mute.new ≡ is_mute.old }
    ensures mute { result ≡ false → WentMute is_mute.old is_mute.new }
{
    if *is_mute {
        return true;
    }
    let Ok(bytes) = Vec::from_slice(alloc, bytes) else {
        *is_mute = true;
        return false;
    };
    let call = match way {
        Way::Came => Kept::Came { side, port, bytes },
        Way::Sent { is_done } => Kept::Sent {
            side,
            port,
            bytes,
            is_done,
        },
    };
    keep(calls, is_mute, call)
}

/// The bytes of a datagram, up to the longest.
fn at_longest(bytes: &[u8]) -> &[u8]
    ensures front { result.now ≡ take DATAGRAM_BYTES bytes.now }
    ensures within { length result.now ≤ DATAGRAM_BYTES }
{
    let count = DATAGRAM_BYTES.min(bytes.len());
    &bytes[..count]
}

/// Lays a piece at the front of a buffer.
fn lay(piece: &[u8], buf: &mut [u8])
    requires { length piece.now ≤ length buf.old }
    ensures { take (length piece.now) buf.new ≡ piece.now }
{
    buf[..piece.len()].copy_from_slice(piece);
}

/// Lays what comes at the front of the buffer and keeps that. None where no memory is left.
fn give(
    alloc: Global,
    calls: &mut Vec<Kept>,
    is_mute: &mut bool,
    side: Side,
    next: Option<Coming<'_>>,
    buf: &mut [u8],
) -> Option<Option<(u16, usize)>>
    requires { DATAGRAM_BYTES ≤ length buf.old }
    ensures bound { IfSome result (λ got. IfSome got (λ datagram. datagram.1 ≤ DATAGRAM_BYTES)) }
    ensures gives { IfSome result (λ got. got_of {E = Unit {0}} (Ok got) buf.new ≡ got_from next.entry) }
    ensures told { IfSome result (λ got. Tells (told_by is_mute.old calls.old.items) (told_by is_mute.new calls.new.items)
        (Received side (got_of {E = Unit {0}} (Ok got) buf.new) ∷ [])) }
    ensures still { IfSome result (λ got. is_mute.new ≡ is_mute.old) }
    ensures mute { IfNone result (WentMute is_mute.old is_mute.new) }
{
    let Some(coming) = next else {
        if keep(calls, is_mute, Kept::Nothing { side }) {
            return Some(None);
        }
        return None;
    };
    let piece = at_longest(coming.bytes);
    lay(piece, buf);
    if keep_datagram(alloc, calls, is_mute, Way::Came, side, coming.port, piece) {
        return Some(Some((coming.port, piece.len())));
    }
    None
}

impl Wire for MemoryWire<'_> {
    ghost told = { λ w. told_by w.is_mute w.calls.items };

    ghost failed_opens = { λ w. w.failed_opens };

    ghost faults = { λ w. w.faults };

    fn open(&mut self, overlay: u16, client: u16) -> Result<(), Failed>
        ensures cause { HasCause self.old.failed_opens self.new.failed_opens result }
        ensures others { self.new.faults ≡ self.old.faults }
        ensures told { Tells (told_by self.old.is_mute self.old.calls.items) (told_by self.new.is_mute self.new.calls.items)
            (Opened overlay client (is_done result) ∷ []) }
        ensures fails { is_planned self.old.plan.opens.now self.old.opens ≡ true → IsErr result }
        ensures only { IsErr result → (is_planned self.old.plan.opens.now self.old.opens ≡ true) ⊎ WentMute self.old.is_mute self.new.is_mute }
        ensures counted { self.new.opens ≡ min (self.old.opens + 1) (2 ^ 64 - 1) }
    {
        let is_done = !is_planned(self.plan.opens, &mut self.opens);
        let call = Kept::Opened {
            overlay,
            client,
            is_done,
        };
        let is_kept = keep(&mut self.calls, &mut self.is_mute, call);
        if is_done && is_kept {
            return Ok(());
        }
        self.failed_opens = self.failed_opens.saturating_add(1);
        Err(Failed)
    }

    fn receive(&mut self, side: Side, buf: &mut [u8]) -> Result<Option<(u16, usize)>, Failed>
        requires { DATAGRAM_BYTES ≤ length buf.old }
        ensures bound { IfOk result (λ got. IfSome got (λ datagram. datagram.1 ≤ DATAGRAM_BYTES)) }
        ensures cause { HasCause self.old.faults self.new.faults result }
        ensures others { self.new.failed_opens ≡ self.old.failed_opens }
        ensures told { Tells (told_by self.old.is_mute self.old.calls.items) (told_by self.new.is_mute self.new.calls.items)
            (Received side (got_of result buf.new) ∷ []) }
        ensures fails { is_planned self.old.plan.receives.now self.old.receives ≡ true → IsErr result }
        ensures only { IsErr result → (is_planned self.old.plan.receives.now self.old.receives ≡ true) ⊎ WentMute self.old.is_mute self.new.is_mute }
        ensures counted { self.new.receives ≡ min (self.old.receives + 1) (2 ^ 64 - 1) }
        ensures gives { OnOk result (got_of result buf.new ≡ got_from (next_in (of_side side self.old.overlay.now self.old.client.now))) }
        ensures taken { OnOk result (Takes side self.old.overlay.now self.old.client.now self.new.overlay.now self.new.client.now) }
    {
        if is_planned(self.plan.receives, &mut self.receives) {
            keep(&mut self.calls, &mut self.is_mute, Kept::Lost { side });
            self.faults = self.faults.saturating_add(1);
            return Err(Failed);
        }
        let next = next_of_side(side, &mut self.overlay, &mut self.client);
        let Some(got) = give(
            self.alloc,
            &mut self.calls,
            &mut self.is_mute,
            side,
            next,
            buf,
        ) else {
            self.faults = self.faults.saturating_add(1);
            return Err(Failed);
        };
        Ok(got)
    }

    fn send(&mut self, side: Side, port: u16, bytes: &[u8]) -> Result<(), Failed>
        ensures cause { HasCause self.old.faults self.new.faults result }
        ensures others { self.new.failed_opens ≡ self.old.failed_opens }
        ensures told { Tells (told_by self.old.is_mute self.old.calls.items) (told_by self.new.is_mute self.new.calls.items)
            (Sent side port bytes.now (is_done result) ∷ []) }
        ensures fails { is_planned self.old.plan.sends.now self.old.sends ≡ true → IsErr result }
        ensures only { IsErr result → (is_planned self.old.plan.sends.now self.old.sends ≡ true) ⊎ WentMute self.old.is_mute self.new.is_mute }
        ensures counted { self.new.sends ≡ min (self.old.sends + 1) (2 ^ 64 - 1) }
    {
        let is_done = !is_planned(self.plan.sends, &mut self.sends);
        let is_kept = keep_datagram(
            self.alloc,
            &mut self.calls,
            &mut self.is_mute,
            Way::Sent { is_done },
            side,
            port,
            bytes,
        );
        if is_done && is_kept {
            return Ok(());
        }
        self.faults = self.faults.saturating_add(1);
        Err(Failed)
    }
}
