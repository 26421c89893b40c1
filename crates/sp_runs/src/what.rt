// What is forged.
use sp_base::Bytes;

/// What of an event is forged.
#[derive(Debug, Drop)]
pub enum What {
    /// The tag of its bytes.
    Tag,
    /// The signature of the message of these bytes.
    Object(Bytes),
}
