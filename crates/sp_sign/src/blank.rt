// A message that isn't signed yet.
use sp_base::Bytes;
use sp_msg::Kept;

/// A message with the bytes that are to be signed. Its signature has the length of one, and no byte of it counts yet.
#[derive(Debug, Drop)]
pub struct Blank {
    pub kept: Kept,
    pub bytes: Bytes,
}
