// A question from its opening to its reply.
ghost use Rattle.std.specs.Prelude.{◌≡◌, ◌≢◌, ◌⊎◌, Err, IfOk, IsErrOf, None, Some, take, vec_len};
ghost use Rattle.std.specs.String.{string_bytes};
ghost use Rattle.sp_outside.specs.declared.wire.TheConstants.{DATAGRAM_BYTES};
ghost use Rattle.sp_outside.specs.Causes.{Rose};
ghost use Rattle.sp_client.specs.Requests.{IsRequest};
ghost use Rattle.sp_client.specs.declared.request.Request.{Request};
ghost use Rattle.sp_service_ask.specs.Asking.{Asked, Unopened, front_of};

use crate::listen::converse;
use crate::question::Question;
use crate::refused::AskRefused;
use sp_base::{Bytes, Memory};
use sp_client::read_request;
use sp_outside::{DATAGRAM_BYTES, Wire};
use sp_text::push_number;
use std::alloc::Global;

/// Asks a daemon of this machine: opens the port to ask from, sends the request once, and receives until the first reply comes, at most
/// so often as the question says. A reply is a datagram of the port that was asked that begins with the request's number and a space; it
/// is given as it came. A send that fails isn't told, and a receive that fails gives nothing. All memory is taken before the first call.
pub fn ask<W: Wire>(
    alloc: Global,
    question: &Question<'_>,
    wire: &mut W,
) -> Result<Bytes, AskRefused>
    ensures reply { IfOk result (λ reply. Asked question.now (W.told wire.old) (W.told wire.new) (Some reply)) }
    ensures unanswered { IsErrOf result AskRefused.Unanswered → Asked question.now (W.told wire.old) (W.told wire.new) None }
    ensures unopened { IsErrOf result AskRefused.Unopened → Unopened question.now (W.told wire.old) (W.told wire.new) }
    ensures no_request { IsErrOf result AskRefused.NoRequest → (r : Request) → IsRequest question.now.request.now r → ⊥ }

    // Only an open that failed is told so, and nothing was called where there is no request or no memory.
    ensures failed { IsErrOf result AskRefused.Unopened → Rose (W.failed_opens wire.old) (W.failed_opens wire.new) }
    ensures opened { result ≢ Err AskRefused.Unopened → W.failed_opens wire.new ≡ W.failed_opens wire.old }
    ensures untouched { IsErrOf result AskRefused.NoRequest ⊎ IsErrOf result AskRefused.Memory → wire.new ≡ wire.old }
{
    let Some(request) = read_request(alloc, question.request)? else {
        return Err(AskRefused::NoRequest);
    };
    let front = reply_front(alloc, request.number)?;
    let mut buf = room_for_a_datagram(alloc)?;
    match converse(wire, question, front.as_bytes(), buf.as_mut_slice()) {
        Ok(Some(count)) => Ok(front_bytes(buf, count)),
        Ok(None) => Err(AskRefused::Unanswered),
        Err(_) => Err(AskRefused::Unopened),
    }
}

/// How the replies to a request of this number begin.
fn reply_front(alloc: Global, number: u64) -> Result<String, Memory>
    ensures { IfOk result (λ front. string_bytes front ≡ front_of number) }
{
    let mut front = String::new(alloc);
    push_number(&mut front, number)?;
    front.push(' ')?;
    Ok(front)
}

/// A buffer for the longest datagram.
fn room_for_a_datagram(alloc: Global) -> Result<Vec<u8>, Memory>
    ensures { IfOk result (λ buf. vec_len buf ≡ DATAGRAM_BYTES) }
{
    Ok(vec![in alloc; 0u8; DATAGRAM_BYTES]?)
}

/// The bytes at the front of a buffer. It takes no memory.
fn front_bytes(mut buf: Vec<u8>, count: usize) -> Bytes
    ensures { result ≡ take count buf.items }
{
    buf.truncate(count);
    Bytes::from_vec(buf)
}
