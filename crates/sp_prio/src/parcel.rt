// A message with a copy for each place that it goes into: all memory is taken before anything changes.
ghost use Rattle.std.specs.Prelude.{◌≡◌, ◌<◌, ◌+◌, IfOk, replicate, vec_capacity};
ghost use Rattle.sp_prio.specs.Parcel.{AreBeside, beside_count};

use sp_base::{Memory, NodeId};
use sp_msg::Kept;
use std::alloc::Global;
use std::marker::Model;

/// A message, the neighbour that it came from, or none for an own one, and a copy for each place that it goes into.
///
/// The message itself is the copy of the last of several places.
#[derive(Debug, Drop)]
pub struct Parcel {
    kept: Kept,
    came: Option<NodeId>,
    copies: usize,
    beside: Vec<Kept>,
}

impl Model for Parcel {
    ghost use Rattle.std.specs.Prelude.{vec_capacity};
    ghost use Rattle.sp_prio.specs.Parcel as parcels;

    ghost Value = { parcels.Parcel };

    ghost view = { λ p. record { kept = p.kept; came = p.came; copies = p.copies } };

    ghost invariant = { λ p. parcels.AreBeside p.kept p.copies p.beside.items (vec_capacity p.beside) };
}

impl Parcel {
    /// The message with so many copies.
    pub(crate) fn new(
        alloc: Global,
        kept: Kept,
        came: Option<NodeId>,
        copies: usize,
    ) -> Result<Parcel, Memory>
        ensures { IfOk result (λ parcel. parcel ≡ record { kept = kept; came = came; copies = copies }) }
    {
        let beside = copies_of(alloc, &kept, beside_count(copies))?;
        Ok(Parcel::from_parts(kept, came, copies, beside))
    }

    /// The message with the copies that stand beside it.
    pub(crate) fn from_parts(
        kept: Kept,
        came: Option<NodeId>,
        copies: usize,
        beside: Vec<Kept>,
    ) -> Parcel
        requires { AreBeside kept copies beside.items (vec_capacity beside) }
        ensures { result ≡ record { kept = kept; came = came; copies = copies } }
    {
        Parcel {
            kept,
            came,
            copies,
            beside,
        }
    }

    /// The parts: the message, where it came from, and the copies beside it, with room for one more.
    pub(crate) fn into_parts(self) -> (Kept, Option<NodeId>, Vec<Kept>)
        ensures kept { result.0 ≡ self.kept }
        ensures came { result.1 ≡ self.came }
        ensures beside { AreBeside self.kept self.copies result.2.items (vec_capacity result.2) }
    {
        (self.kept, self.came, self.beside)
    }
}

/// How many copies stand beside a message that goes into so many places: it is the copy of the last one itself. At a single place, which may be its
/// destination, its payload is told beside the copy.
pub(crate) fn beside_count(copies: usize) -> usize
    ensures { result ≡ beside_count copies }
{
    if copies <= 1 { copies } else { copies - 1 }
}

/// A second one of a message.
pub(crate) fn copy_of(alloc: Global, kept: &Kept) -> Result<Kept, Memory>
    ensures { IfOk result (λ copy. copy ≡ kept.now) }
{
    match kept.copy(alloc) {
        Ok(copy) => Ok(copy),
        Err(_) => Err(Memory),
    }
}

/// So many of a message, with room for one more.
fn copies_of(alloc: Global, kept: &Kept, count: usize) -> Result<Vec<Kept>, Memory>
    ensures copies { IfOk result (λ copies. copies.items ≡ replicate count kept.now) }
    ensures room { IfOk result (λ copies. count < vec_capacity copies) }
{
    let room = count.checked_add(1).ok_or(Memory)?;
    let mut copies = Vec::with_capacity(alloc, room)?;
    'copies: for _ in 0..count {
        copies.push(copy_of(alloc, kept)?)?;
    }
    Ok(copies)
}
