// Chains on their way, four at a time: when the chain of a lane is at its end, the lane takes another one. The longest go first, so that
// no lane waits long for the others at the end.
ghost use Rattle.std.specs.Prelude.{◌≡◌, ℕ, ◌+◌, ◌-◌, ◌<◌, ◌≤◌, ◌^◌, ◌++◌, ◌↔◌, IsTrue, List, [], length, map, take, drop, replicate};
ghost use Rattle.std.specs.Prelude.{slice_index, slice_index_or, slice_set};
ghost use Rattle.sha2.specs.Sha256.{sha256};
ghost use Rattle.sp_ots.specs.Lanes.{lanes};
ghost use Rattle.sp_ots.specs.Strings.{u8str};
ghost use Rattle.sp_ots.specs.TwoLeaves.{front_in};
ghost use Rattle.sp_ots.specs.UnderWay.{AreUnderWay, AreFull, IsInTurn, IsSound, work_left};

use crate::two_leaves::TwoLeaves;
use crate::{LANES, digests};

/// What each lane holds of the chains that are on their way.
#[derive(Drop)]
pub(crate) struct Lanes {
    /// No chain that is left has more steps. Those with more than a third as many are taken in this turn.
    most: u8,
    /// Of these the first one that is left.
    next: usize,
    /// The place of the chain in each lane.
    chains: [usize; LANES],
    /// How many steps that chain has left. A lane with none is idle.
    left: [u8; LANES],
    /// The message that is hashed for its next step.
    messages: [[u8; 55]; LANES],
}

impl Lanes {
    /// All lanes idle, and all chains still to be taken, of which none has more steps than `most`.
    pub(crate) fn idle(most: u8) -> Lanes
        ensures { (front : ℕ → List ℕ) (from to : List ℕ) (elements : List (List ℕ))
            → ((i : ℕ) → i < length elements → slice_index to i ≤ most) → AreUnderWay front from to elements elements result }
    {
        Lanes {
            most,
            next: 0,
            chains: [0; LANES],
            left: [0; LANES],
            messages: [[0; 55]; LANES],
        }
    }

    pub(crate) fn are_idle(&self) -> bool
        ensures { IsTrue result ↔ (self.now.left ≡ replicate lanes 0) }
    {
        self.left == [0; LANES]
    }

    /// Gives a chain that has steps to each idle lane, as long as there is one.
    pub(crate) fn fill(&mut self, leaves: &TwoLeaves, from: &[u8], to: &[u8], elements: &[[u8; 32]])
        requires numbers { length elements.now ≤ 2 ^ 16 }
        requires from { length from.now ≡ length elements.now }
        requires to { length to.now ≡ length elements.now }
        ensures under_way { (old : List (List ℕ)) → AreUnderWay (front_in leaves.now) from.now to.now old elements.now self.old
            → AreUnderWay (front_in leaves.now) from.now to.now old elements.now self.new }
        ensures full { AreFull self.new }
        ensures work { work_left (length elements.now) self.new ≤ work_left (length elements.now) self.old }
    {
        'lanes: for k in 0..LANES {
            if self.left[k] == 0 {
                self.take(k, leaves, from, to, elements);
            }
        }
    }

    /// Gives lane k, which is idle, a chain that has steps.
    fn take(&mut self, k: usize, leaves: &TwoLeaves, from: &[u8], to: &[u8], elements: &[[u8; 32]])
        requires lane { k < lanes }
        requires idle { slice_index self.old.left k ≡ 0 }
        requires numbers { length elements.now ≤ 2 ^ 16 }
        requires from { length from.now ≡ length elements.now }
        requires to { length to.now ≡ length elements.now }
        ensures under_way { (old : List (List ℕ)) → AreUnderWay (front_in leaves.now) from.now to.now old elements.now self.old
            → AreUnderWay (front_in leaves.now) from.now to.now old elements.now self.new }
        ensures full { slice_index self.new.left k ≡ 0 → self.new.most ≡ 0 }
        ensures others { (m : ℕ) → m < k → slice_index self.new.left m ≡ slice_index self.old.left m }
        ensures none { self.old.most ≡ 0 → self.new.most ≡ 0 }
        ensures work { work_left (length elements.now) self.new ≤ work_left (length elements.now) self.old }
    {
        self.seek(from, to);
        if self.most > 0 {
            let i = self.next;
            self.next = i + 1;
            self.chains[k] = i;
            self.left[k] = to[i] - from[i];
            self.messages[k] = leaves.message(i, from[i], &elements[i]);
        }
    }

    /// Goes on to the next chain that is to be taken, as long as there is one.
    fn seek(&mut self, from: &[u8], to: &[u8])
        requires numbers { length to.now ≤ 2 ^ 16 }
        requires from { length from.now ≡ length to.now }
        ensures under_way { (front : ℕ → List ℕ) (old now : List (List ℕ)) → length to.now ≡ length old
            → AreUnderWay front from.now to.now old now self.old → AreUnderWay front from.now to.now old now self.new }
        ensures found { 0 < self.new.most → (self.new.next < length to.now) × IsInTurn from.now to.now self.new.most self.new.next }
        ensures none { self.old.most ≡ 0 → self.new.most ≡ 0 }
        ensures chains { self.new.chains ≡ self.old.chains }
        ensures left { self.new.left ≡ self.old.left }
        ensures messages { self.new.messages ≡ self.old.messages }
        ensures work { work_left (length to.now) self.new ≤ work_left (length to.now) self.old }
    {
        'turns: while self.most > 0 {
            self.next = next_chain(from, to, self.next, self.most);
            if self.next < to.len() {
                return;
            }
            self.most /= 3;
            self.next = 0;
        }
    }

    /// Makes a step of the chain in each lane.
    pub(crate) fn step(&mut self, to: &[u8], elements: &mut [[u8; 32]])
        requires to { length to.now ≡ length elements.old }
        requires sound { IsSound to.now self.old }
        ensures under_way { (front : ℕ → List ℕ) (from : List ℕ) (old : List (List ℕ)) → ((i : ℕ) → length (front i) ≡ 22)
            → AreUnderWay front from to.now old elements.old self.old
            → AreUnderWay front from to.now old elements.new self.new }
        ensures most { self.new.most ≡ self.old.most }
        ensures next { self.new.next ≡ self.old.next }
        ensures left { self.new.left ≡ map (λ n. n - 1) self.old.left }
    {
        let next = digests(&self.messages);
        'lanes: for k in 0..LANES {
            if self.left[k] > 0 {
                self.advance(k, &next[k], to, elements);
            }
        }
    }

    /// Lays down the next element of the chain in lane k, which is the digest of its message.
    fn advance(&mut self, k: usize, digest: &[u8; 32], to: &[u8], elements: &mut [[u8; 32]])
        requires lane { k < lanes }
        requires busy { 0 < slice_index self.old.left k }
        requires to { length to.now ≡ length elements.old }
        requires sound { IsSound to.now self.old }
        ensures under_way { (front : ℕ → List ℕ) (from : List ℕ) (old : List (List ℕ)) → ((i : ℕ) → length (front i) ≡ 22)
            → digest.now ≡ sha256 (slice_index_or self.old.messages k [])
            → AreUnderWay front from to.now old elements.old self.old
            → AreUnderWay front from to.now old elements.new self.new }
        ensures sound { IsSound to.now self.new }
        ensures most { self.new.most ≡ self.old.most }
        ensures next { self.new.next ≡ self.old.next }
        ensures left { self.new.left ≡ slice_set self.old.left k (slice_index self.old.left k - 1) }
        ensures messages { drop (k + 1) self.new.messages ≡ drop (k + 1) self.old.messages }
    {
        let i = self.chains[k];
        let left = self.left[k] - 1;
        self.left[k] = left;
        elements[i] = *digest;
        renew(&mut self.messages[k], to[i] - left, digest);
    }
}

/// The first chain from `start` on with more steps than a third of `most`, and no more than `most`. The number of chains where there is none.
fn next_chain(from: &[u8], to: &[u8], start: usize, most: u8) -> usize
    requires { length from.now ≡ length to.now }
    ensures low { result < length to.now → start ≤ result }
    ensures high { result ≤ length to.now }
    ensures others { (i : ℕ) → start ≤ i → i < result → ¬ IsInTurn from.now to.now most i }
    ensures in_turn { result < length to.now → IsInTurn from.now to.now most result }
{
    'chains: for i in start..to.len() {
        let steps = to[i].saturating_sub(from[i]);
        if most / 3 < steps && steps <= most {
            return i;
        }
    }
    to.len()
}

/// Puts another step's number and element into the message of a chain.
pub(crate) fn renew(message: &mut [u8; 55], step: u8, element: &[u8; 32])
    ensures { message.new ≡ take 22 message.old ++ u8str step ++ element.now }
{
    message[22] = step;
    message[23..].copy_from_slice(element);
}
