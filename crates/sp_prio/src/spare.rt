// The copies beside an own message: their memory is taken before it is signed, and then its signature is written into each of them once.
ghost use Rattle.std.specs.Prelude.{◌≡◌, ◌≤◌, All, IfOk, length, vec_capacity};
ghost use Rattle.sp_prio.specs.Parcel.{AreBeside};
ghost use Rattle.sp_prio.specs.Spare.{Becomes, IsSpareFor, IsSpareOf};

use crate::parcel::{Parcel, beside_count};
use sp_base::{Bytes, Memory, NodeId, push_in_room};
use sp_msg::{Body, Kept, keep};
use std::alloc::Global;
use std::marker::Model;

/// The copies beside a message that isn't signed yet and goes into so many places, and an empty vector with room for all of them and one more.
#[derive(Debug, Drop)]
pub struct Spare {
    copies: usize,
    unsigned: Vec<Unsigned>,
    signed: Vec<Kept>,
}

impl Model for Spare {
    ghost use Rattle.std.specs.Prelude.{◌≡◌, [], vec_capacity};
    ghost use Rattle.sp_prio.specs.Spare as spares;

    ghost Value = { spares.Spare };

    ghost view = { λ s. record { copies = s.copies; unsigned = s.unsigned.items; room = vec_capacity s.signed } };

    ghost invariant = { λ s. s.signed.items ≡ [] };
}

/// The copy of a message that isn't signed yet: its body, and an empty vector with room for the signature.
#[derive(Debug, Drop)]
struct Unsigned {
    body: Body,
    signature: Vec<u8>,
}

impl Model for Unsigned {
    ghost use Rattle.std.specs.Prelude.{◌≡◌, [], vec_capacity};
    ghost use Rattle.sp_prio.specs.Spare as spares;

    ghost Value = { spares.Unsigned };

    ghost view = { λ u. record { body = u.body; room = vec_capacity u.signature } };

    ghost invariant = { λ u. u.signature.items ≡ [] };
}

impl Spare {
    /// The copies beside a message that goes into so many places, each with room for a signature as long as that of the message.
    pub(crate) fn new(alloc: Global, kept: &Kept, copies: usize) -> Result<Spare, Memory>
        ensures of_it { IfOk result (IsSpareOf kept.now) }
        ensures copies { IfOk result (λ spare. spare.copies ≡ copies) }
    {
        let count = beside_count(copies);
        let unsigned = unsigned_of(alloc, kept, count)?;
        let room = count.checked_add(1).ok_or(Memory)?;
        let signed = Vec::with_capacity(alloc, room)?;
        Ok(Spare {
            copies,
            unsigned,
            signed,
        })
    }

    /// The parcel of a message that differs from that of these copies in the bytes of its signature alone: each of them gets its signature.
    /// It takes no memory.
    pub fn parcel(self, kept: Kept, came: Option<NodeId>) -> Parcel
        requires { IsSpareFor kept self }
        ensures { result ≡ record { kept = kept; came = came; copies = self.copies } }
    {
        let copies = self.copies;
        let beside = self.signed_as(&kept);
        Parcel::from_parts(kept, came, copies, beside)
    }

    /// The copies with the signature of this message.
    fn signed_as(self, kept: &Kept) -> Vec<Kept>
        requires { IsSpareOf kept.now self }
        ensures { AreBeside kept.now self.copies result.items (vec_capacity result) }
    {
        let mut signed = self.signed;
        'copies: for copy in self.unsigned {
            push_in_room(&mut signed, copy.signed(kept.signature.as_slice()));
        }
        signed
    }
}

impl Unsigned {
    /// A copy of a message, but for its signature: there is room for it.
    fn new(alloc: Global, kept: &Kept) -> Result<Unsigned, Memory>
        ensures { IfOk result (Becomes kept.now) }
    {
        let Ok(copy) = keep(alloc, &kept.body.as_ref(), &[]) else {
            return Err(Memory);
        };
        Ok(Unsigned {
            body: copy.body,
            signature: Vec::with_capacity(alloc, kept.signature.as_slice().len())?,
        })
    }

    /// The message with this signature. It takes no memory.
    fn signed(self, signature: &[u8]) -> Kept
        requires { length signature.now ≤ self.room }
        ensures { result ≡ record { body = self.body; signature = signature.now } }
    {
        let mut bytes = self.signature;
        bytes.extend_from_slice(signature).unwrap();
        Kept {
            body: self.body,
            signature: Bytes::from_vec(bytes),
        }
    }
}

/// So many copies of a message that aren't signed yet.
fn unsigned_of(alloc: Global, kept: &Kept, count: usize) -> Result<Vec<Unsigned>, Memory>
    ensures each { IfOk result (λ unsigned. All (Becomes kept.now) unsigned.items) }
    ensures count { IfOk result (λ unsigned. length unsigned.items ≡ count) }
{
    let mut unsigned = Vec::with_capacity(alloc, count)?;
    'copies: for _ in 0..count {
        unsigned.push(Unsigned::new(alloc, kept)?)?;
    }
    Ok(unsigned)
}
