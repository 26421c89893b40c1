// The probes of one link, both ways.
ghost use Rattle.std.specs.Prelude.{◌≡◌, ◌≤◌, ◌<◌, ◌+◌, IfSome, None, Some};
ghost use Rattle.std.specs.Option.{ForSome};
ghost use Rattle.sp_base.specs.declared.limits.TheConstants.{MAX_WEIGHT};
ghost use Rattle.sp_measure.specs.Costs.{with_cost};
ghost use Rattle.sp_measure.specs.Hashed.{hashed};
ghost use Rattle.sp_measure.specs.Meters.{after_echo, after_probe, due_weight, has_rested, judge_echo, judge_probe, new_meter, opened, probe_of, published_at};
ghost use Rattle.sp_measure.specs.Meters.{renewed};
ghost use Rattle.sp_measure.specs.declared.opening.TheConstants.{MAX_COST, MAX_OPENINGS};

use crate::answers::{EchoAnswer, ProbeAnswer};
use crate::nonces::{nonce, with_nonce};
use crate::opening::Opening;
use crate::weight::{WEIGHED_COSTS, weight_of};
use sp_base::NodeId;
use sp_frame::Probe;
use std::fmt;
use std::marker::Model;

/// What a node keeps of the probes of a link, with the key of the link, which no debug line says. Times are the node's, at a daemon milliseconds
/// since 1970, and costs have their unit.
#[derive(Drop)]
pub struct Meter {
    key: [u8; 32],
    me: NodeId,
    boot: u64,
    /// The number of the last probe that was opened, and its opening while it is open.
    number: u64,
    opening: Option<Opening>,
    /// The proof of all own probes up to it.
    expected: [u8; 32],
    /// The number of the neighbour's last probe that was taken, and the proof of all up to it.
    taken: u64,
    proof: [u8; 32],
    /// The costs of the last probes that were closed, the last ones of these places, oldest first.
    costs: [u32; 32],
    closed: usize,
    published: Option<u64>,
}

impl Model for Meter {
    ghost use Rattle.sp_measure.specs.Meters.{MeterState};
    ghost use Rattle.sp_measure.specs.Places.{IsMeter, costs_in};

    ghost Value = { MeterState };

    ghost view = { λ m. record {
      sender = record { key = m.key; me = m.me; boot = m.boot };
      number = m.number;
      opening = m.opening;
      taken = m.taken;
      proof = m.proof;
      costs = costs_in m.costs m.closed;
      published = m.published;
    } };

    ghost invariant = { λ m. IsMeter (record { key = m.key; me = m.me; boot = m.boot }) m.number m.expected m.costs m.closed };
}

impl fmt::Debug for Meter {
    fn fmt<W: fmt::Write>(&self, f: &mut fmt::Formatter<W>) -> fmt::Result {
        f.debug_struct("Meter")
            .field("me", &self.me)
            .field("boot", &self.boot)
            .field("number", &self.number)
            .field("opening", &self.opening)
            .field("taken", &self.taken)
            .field("closed", &self.closed)
            .field("published", &self.published)
            .finish_non_exhaustive()
    }
}

impl Meter {
    /// The meter of a link over which no probe went or came: the link's key, this node, and its boot as in the heads of its frames.
    pub fn new(key: [u8; 32], me: NodeId, boot: u64) -> Meter
        ensures { result ≡ new_meter (record { key = key; me = me; boot = boot }) }
    {
        Meter {
            key,
            me,
            boot,
            number: 0,
            opening: None,
            expected: [0; 32],
            taken: 0,
            proof: [0; 32],
            costs: [0; 32],
            closed: 0,
            published: None,
        }
    }

    /// The number of the last probe that was opened, 0 before one.
    pub fn number(&self) -> u64
        ensures { result ≡ self.now.number }
    {
        self.number
    }

    /// The opening of the last probe, while it is open.
    pub fn opening(&self) -> Option<Opening>
        ensures { result ≡ self.now.opening }
    {
        self.opening
    }

    /// The same once more, for a frame that may find no memory.
    pub fn copy(&self) -> Meter
        ensures { result ≡ self.now }
    {
        Meter {
            key: self.key,
            me: self.me,
            boot: self.boot,
            number: self.number,
            opening: self.opening,
            expected: self.expected,
            taken: self.taken,
            proof: self.proof,
            costs: self.costs,
            closed: self.closed,
            published: self.published,
        }
    }

    /// Probes start anew, both ways, as at first: the neighbour's boot that is known has risen.
    pub fn renew(&mut self)
        ensures { self.new ≡ renewed self.old }
    {
        *self = Meter::new(self.key, self.me, self.boot);
    }

    /// The probe of the next frame, at this time: the open one, or else the next one, which is open from now on. With it goes the echo of the last
    /// probe that was taken, with its proof.
    pub fn open(&mut self, now: u64) -> Probe
        requires number { self.old.number < MAX_OPENINGS }
        requires frames { ForSome self.old.opening (λ o. o.frames < MAX_OPENINGS) }
        ensures meter { self.new ≡ opened self.old now }
        ensures probe { result ≡ probe_of hashed self.new }
    {
        match self.opening {
            Some(opening) => self.opening = Some(opening.carried()),
            None => self.begin(now),
        }
        Probe {
            number: self.number,
            nonce: nonce(&self.key, self.me, self.boot, self.number),
            echo: self.taken,
            proof: self.proof,
        }
    }

    /// The next probe is opened at this time.
    fn begin(&mut self, now: u64)
        requires { self.old.number < MAX_OPENINGS }
        ensures { self.new ≡ record self.old { number = self.old.number + 1; opening = Some (record { since = now; frames = 1 }) } }
    {
        let number = self.number + 1;
        let nonce = nonce(&self.key, self.me, self.boot, number);
        self.expected = with_nonce(&self.expected, &nonce);
        self.number = number;
        self.opening = Some(Opening {
            since: now,
            frames: 1,
        });
    }

    /// What is said of the neighbour's probe in a frame. A new one is taken: its nonce is in the proof from now on.
    pub fn probe(&mut self, probe: &Probe) -> ProbeAnswer
        ensures answer { result ≡ judge_probe self.old probe.now }
        ensures meter { self.new ≡ after_probe hashed self.old probe.now }
    {
        if probe.number == 0 {
            return ProbeAnswer::Nothing;
        }
        if probe.number <= self.taken {
            return ProbeAnswer::Old;
        }
        if probe.number - 1 != self.taken {
            return ProbeAnswer::Gap;
        }
        self.proof = with_nonce(&self.proof, &probe.nonce);
        self.taken = probe.number;
        ProbeAnswer::New
    }

    /// What is said of the neighbour's echo in a frame, at this time. A new one closes the open probe, whose cost is kept.
    pub fn echo(&mut self, probe: &Probe, now: u64) -> EchoAnswer
        requires { ForSome self.old.opening (λ o. o.since ≤ now) }
        ensures answer { result ≡ judge_echo hashed self.old probe.now now }
        ensures meter { self.new ≡ after_echo hashed self.old probe.now now }
    {
        if probe.echo == 0 {
            return EchoAnswer::Nothing;
        }
        let Some(opening) = self.opening else {
            return if probe.echo <= self.number {
                EchoAnswer::Old
            } else {
                EchoAnswer::Bad
            };
        };
        if probe.echo < self.number {
            return EchoAnswer::Old;
        }
        if probe.echo != self.number || probe.proof != self.expected {
            return EchoAnswer::Bad;
        }
        let cost = opening.cost(now);
        self.close(cost);
        EchoAnswer::New {
            number: self.number,
            cost,
        }
    }

    /// The open probe is closed, at this cost.
    fn close(&mut self, cost: u32)
        requires { cost ≤ MAX_COST }
        ensures { self.new ≡ record self.old { opening = None; costs = with_cost self.old.costs cost } }
    {
        self.costs.rotate_left(1);
        self.costs[31] = cost;
        self.closed = (self.closed + 1).min(WEIGHED_COSTS);
        self.opening = None;
    }

    /// The weight to publish over an edge of this minimum, whose own held weight is this: the minimum, where none is held. None where too few probes
    /// are closed, the weight is held, or the last publication is less than the interval before this time.
    pub fn due(&self, minimum: u32, held: u32, now: u64, interval: u64) -> Option<u32>
        requires { (1 ≤ minimum) × (minimum ≤ MAX_WEIGHT) }
        ensures weight { result ≡ due_weight self.now minimum held now interval }
        ensures range { IfSome result (λ weight. (minimum ≤ weight) × (weight ≤ MAX_WEIGHT)) }
    {
        if self.closed != WEIGHED_COSTS {
            return None;
        }
        let weight = weight_of(&self.costs, minimum);
        if weight == held || !has_rested(self.published, now, interval) {
            return None;
        }
        Some(weight)
    }

    /// A weight of this link was published at this time.
    pub fn published(&mut self, now: u64)
        ensures { self.new ≡ published_at self.old now }
    {
        self.published = Some(now);
    }
}

/// Whether the last publication is none, or at least the interval before this time.
fn has_rested(published: Option<u64>, now: u64, interval: u64) -> bool
    ensures { result ≡ has_rested published now interval }
{
    match published {
        None => true,
        Some(last) => last <= now && interval <= now - last,
    }
}
