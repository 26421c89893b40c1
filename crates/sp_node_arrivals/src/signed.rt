// Whether an object bears its signer's signature, and what its bytes say of its fields.
ghost use Rattle.std.specs.Prelude.{◌≡◌, ◌≤◌, ◌+◌, Ok, IfOk};
ghost use Rattle.sp_frame.specs.OfFormat.{IsOf};
ghost use Rattle.sp_frame.specs.Views.{as_object};
ghost use Rattle.sp_msg.specs.Bodies.{encoded_in, read_body_in};
ghost use Rattle.sp_msg.specs.Views.{as_body, signer_of};
ghost use Rattle.sp_rules.specs.Changes.{FitsAFormat};
ghost use Rattle.sp_rules.specs.Parts.{is_signed_by};
ghost use Rattle.sp_topology.specs.Keys.{key_of};
ghost use Rattle.sp_node_arrivals.specs.Signed.{is_right};
ghost use Rattle.sp_node_format.specs.Format.{format_in};

use crate::arrival::Arrival;
use sp_base::Memory;
use sp_frame::ObjectRef;
use sp_msg::{BodyRef, Kept, keep};
use sp_sign::Checker;
use std::alloc::Global;

/// Whether the object bears its signer's signature.
pub(crate) fn is_right(_at: &Arrival<'_>, checker: &mut Checker, object: &ObjectRef<'_>) -> bool
    requires format { IsOf _at.now.fixed.now.topology.format object.now }
    requires keys { checker.old.nodes ≡ _at.now.fixed.now.topology.nodes }
    ensures right { result ≡ is_right _at.now.fixed.now (as_object object.now) }
    ensures keys { checker.new.nodes ≡ checker.old.nodes }
    ensures work { checker.new.checks ≤ checker.old.checks + 1 }
{
    bears(
        checker,
        object.bytes,
        &object.body,
        object.signature,
        object.format,
    )
}

/// The same of the bytes that spell a message in a format.
fn bears(
    checker: &mut Checker,
    bytes: &[u8],
    body: &BodyRef<'_>,
    signature: &[u8],
    _format: u8,
) -> bool
    requires { read_body_in _format bytes.now ≡ Ok (as_body body.now) }
    ensures right { result ≡ is_signed_by (format_in _format) (key_of (signer_of (as_body body.now)).0 checker.old.nodes)
        (encoded_in _format (as_body body.now)) signature.now }
    ensures keys { checker.new.nodes ≡ checker.old.nodes }
    ensures work { checker.new.checks ≤ checker.old.checks + 1 }
{
    let Ok(()) = checker.check(bytes, body, signature) else {
        return false;
    };
    true
}

/// For the prover alone, it does nothing when it runs: the fields of an object are in the ranges of its format, since bytes spell them.
pub(crate) fn recall(object: &ObjectRef<'_>)
    ensures { FitsAFormat (as_object object.now).body }
{
    recall_spelled(object.bytes, &object.body, object.format);
}

/// The same of the bytes that spell a message in a format.
fn recall_spelled(bytes: &[u8], _body: &BodyRef<'_>, _format: u8)
    requires { read_body_in _format bytes.now ≡ Ok (as_body _body.now) }
    ensures { FitsAFormat (as_body _body.now) }
{
    let _count = bytes.len();
}

/// A copy of the object.
pub(crate) fn copy_of(alloc: Global, object: &ObjectRef<'_>) -> Result<Kept, Memory>
    ensures { IfOk result (λ kept. kept ≡ as_object object.now) }
{
    match keep(alloc, &object.body, object.signature) {
        Ok(kept) => Ok(kept),
        Err(_) => Err(Memory),
    }
}
