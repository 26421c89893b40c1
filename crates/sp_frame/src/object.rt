// A signed message in a frame.
ghost use Rattle.std.specs.Prelude.{◌≡◌, Ok};
ghost use Rattle.sp_msg.specs.Bodies.{read_body_in};
ghost use Rattle.sp_msg.specs.Views.{as_body};

use sp_msg::BodyRef;

/// A signed message, borrowed from a datagram: its bytes, the message that they spell, and its signature.
#[derive(Clone, Copy, Debug)]
pub struct ObjectRef<'a> {
    pub bytes: &'a [u8],
    pub body: BodyRef<'a>,
    pub signature: &'a [u8],
    /// The format that the bytes are of.
    pub format: u8,
    ghost spelled: { read_body_in format bytes.now ≡ Ok (as_body body) },
}
