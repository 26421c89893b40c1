// The kind of the messages in a section.
/// The kind of the messages that a section has.
#[derive(Clone, Copy, Debug, PartialEq, Eq)]
pub enum Kind {
    Weight,
    Prio,
    Ack,
    Rel,
    Kack,
    Krel,
    Epoch,
}
