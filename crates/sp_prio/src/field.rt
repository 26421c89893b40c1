// The fields of a priority message. A message of another kind has none: its numbers read as 0.
ghost use Rattle.std.specs.Prelude.{◌≡◌, ◌≤◌};
ghost use Rattle.sp_base.specs.declared.limits.TheConstants.{MAX_SEQ};
ghost use Rattle.sp_rules.specs.Changes.{FitsAFormat};
ghost use Rattle.sp_msg.specs.Masks.{bits};
ghost use Rattle.sp_rules.specs.Prio.{next_after_own};
ghost use Rattle.sp_rules.specs.Store.{said};

use sp_base::NodeId;
use sp_msg::{Body, Mask};

/// The id of the source.
pub fn src_of(body: &Body) -> u8
    ensures { result ≡ said (λ p. p.src.0) body.now }
{
    match body {
        Body::Prio(prio) => prio.src.0,
        _ => 0,
    }
}

/// The id of the destination.
pub fn dst_of(body: &Body) -> u8
    ensures { result ≡ said (λ p. p.dst.0) body.now }
{
    match body {
        Body::Prio(prio) => prio.dst.0,
        _ => 0,
    }
}

/// The number that the source gave it.
#[tactic(auto, using(crate::proofs::Numbers::small_seq))]
pub fn seq_of(body: &Body) -> u64
    ensures number { result ≡ said (λ p. p.seq) body.now }
    ensures range { FitsAFormat body.now → result ≤ MAX_SEQ }
{
    match body {
        Body::Prio(prio) => prio.seq,
        _ => 0,
    }
}

/// The edges over which it may go.
pub fn mask_of(body: &Body) -> Mask
    ensures { bits result ≡ said (λ p. bits p.mask) body.now }
{
    match body {
        Body::Prio(prio) => prio.mask,
        _ => Mask::none(),
    }
}

/// The number of this node's next own message after this message: one from nowhere is its own.
pub fn next_after_own(next: u64, body: &Body, came: Option<NodeId>) -> u64
    requires { FitsAFormat body.now }
    ensures { result ≡ next_after_own next body.now came }
{
    match came {
        Some(_) => next,
        None => seq_of(body) + 1,
    }
}
