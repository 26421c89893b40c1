// The calls of a question: its port is opened, the request is sent, and then one receive comes after another, up to the first reply.
ghost use Rattle.std.specs.Prelude.{◌≡◌, ◌≤◌, ◌∷◌, [], IfOk, IfSome, OnErr, OnOk, false, length};
ghost use Rattle.sp_outside.specs.declared.wire.TheConstants.{DATAGRAM_BYTES};
ghost use Rattle.sp_outside.specs.Calls.{Opened, Tells};
ghost use Rattle.sp_outside.specs.Causes.{Rose};
ghost use Rattle.sp_service_ask.specs.Listening.{Conversed, Heard, Listened, lies_in};

use crate::question::Question;
use sp_outside::{Failed, Side, Wire};

/// One receive, and the length of its datagram where that is a reply: it comes from the port that was asked and begins so.
fn hear<W: Wire>(wire: &mut W, port: u16, front: &[u8], buf: &mut [u8]) -> Option<usize>
    requires { DATAGRAM_BYTES ≤ length buf.old }
    ensures heard { Heard port front.now (W.told wire.old) (W.told wire.new) (lies_in buf.new result) }
    ensures within { IfSome result (λ count. count ≤ length buf.new) }
    ensures opens { W.failed_opens wire.new ≡ W.failed_opens wire.old }
{
    let Ok(Some((from, count))) = wire.receive(Side::Client, buf) else {
        return None;
    };
    if from == port && buf[..count].starts_with(front) {
        Some(count)
    } else {
        None
    }
}

/// So many receives, or as many as there are up to the first reply. Its length is given; it lies at the front of the buffer.
fn listen<W: Wire>(
    wire: &mut W,
    port: u16,
    front: &[u8],
    turns: u32,
    buf: &mut [u8],
) -> Option<usize>
    requires { DATAGRAM_BYTES ≤ length buf.old }
    ensures listened { Listened port front.now turns (W.told wire.old) (W.told wire.new) (lies_in buf.new result) }
    ensures within { IfSome result (λ count. count ≤ length buf.new) }
    ensures opens { W.failed_opens wire.new ≡ W.failed_opens wire.old }
{
    'turns: for _made in 0..turns {
        if let Some(count) = hear(wire, port, front, buf) {
            return Some(count);
        }
    }
    None
}

/// Opens the port, sends the request, and receives up to the first reply. It fails where the port can't be opened. None where no reply
/// came; the length of one that lies at the front of the buffer.
pub fn converse<W: Wire>(
    wire: &mut W,
    question: &Question<'_>,
    front: &[u8],
    buf: &mut [u8],
) -> Result<Option<usize>, Failed>
    requires request { length question.now.request.now ≤ DATAGRAM_BYTES }
    requires buffer { DATAGRAM_BYTES ≤ length buf.old }
    ensures conversed { IfOk result (λ count. Conversed question.now front.now (W.told wire.old) (W.told wire.new) (lies_in buf.new count)) }
    ensures within { IfOk result (λ count. IfSome count (λ n. n ≤ length buf.new)) }
    ensures unopened { OnErr result (Tells (W.told wire.old) (W.told wire.new) (Opened 0 question.now.local false ∷ [])) }
    ensures failed { OnErr result (Rose (W.failed_opens wire.old) (W.failed_opens wire.new)) }
    ensures opened { OnOk result (W.failed_opens wire.new ≡ W.failed_opens wire.old) }
{
    wire.open(0, question.local)?;
    let _ = wire.send(Side::Client, question.port, question.request);
    Ok(listen(wire, question.port, front, question.turns, buf))
}
