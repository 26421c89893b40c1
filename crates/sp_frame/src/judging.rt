// A signed message in a frame, judged where it stands.
ghost use Rattle.std.specs.Prelude.{◌≡◌, IfOk, Ok};
ghost use Rattle.sp_base.specs.Refusals.{Gives};
ghost use Rattle.sp_msg.specs.Bodies.{read_body_in};
ghost use Rattle.sp_msg.specs.Views.{as_body};
ghost use Rattle.sp_frame.specs.Objects.{is_of, length_of, object, of_kind};
ghost use Rattle.sp_frame.specs.OfFormat.{IsOf};
ghost use Rattle.sp_frame.specs.Views.{as_object};

use crate::kind::Kind;
use crate::{ObjectRef, SectionRefused};
use sp_base::Reader;
use sp_msg::BodyRef;

/// The next bytes as a signed message of this kind.
#[tactic(auto, unfolding(crate::specs::Objects::object, crate::specs::Grammar::piece, crate::specs::Grammar::number))]
pub(crate) fn object_at<'a>(
    reader: &mut Reader<'a>,
    format: u8,
    kind: Kind,
    signature_len: usize,
) -> Result<ObjectRef<'a>, SectionRefused>
    ensures read { Gives (λ o. (as_object o, reader.new)) result (object format kind signature_len reader.old) }
    ensures of_format { IfOk result (IsOf format) }
{
    let len = reader.u16()?;
    let bytes = reader.take(usize::from(len))?;
    let body = body_of(format, kind, bytes)?;
    length_at(reader, signature_len)?;
    let signature = reader.take(signature_len)?;
    Ok(ObjectRef {
        bytes,
        body,
        signature,
        format,
    })
}

/// The message of this kind that the bytes are.
fn body_of<'a>(format: u8, kind: Kind, bytes: &'a [u8]) -> Result<BodyRef<'a>, SectionRefused>
    ensures read { Gives as_body result (of_kind kind (read_body_in format bytes.now)) }
    ensures spelled { IfOk result (λ body. read_body_in format bytes.now ≡ Ok (as_body body)) }
{
    match BodyRef::read_in(bytes, format) {
        Ok(body) if is_of(kind, &body) => Ok(body),
        _ => Err(SectionRefused::Object),
    }
}

fn is_of(kind: Kind, body: &BodyRef<'_>) -> bool
    ensures { result ≡ is_of kind (as_body body.now) }
{
    match (kind, body) {
        (Kind::Weight, BodyRef::Weight(_)) => true,
        (Kind::Prio, BodyRef::Prio(_)) => true,
        (Kind::Ack, BodyRef::Ack(_)) => true,
        (Kind::Rel, BodyRef::Rel(_)) => true,
        (Kind::Kack, BodyRef::Kack(_)) => true,
        (Kind::Krel, BodyRef::Krel(_)) => true,
        (Kind::Epoch, BodyRef::Epoch(_)) => true,
        _ => false,
    }
}

/// The next two bytes, which must be this length.
#[tactic(auto, unfolding(crate::specs::Objects::length_of, crate::specs::Grammar::number))]
fn length_at(reader: &mut Reader<'_>, len: usize) -> Result<(), SectionRefused>
    ensures { Gives (λ _. (len, reader.new)) result (length_of len reader.old) }
{
    let found = reader.u16()?;
    if usize::from(found) == len {
        Ok(())
    } else {
        Err(SectionRefused::Object)
    }
}
