// What a node answers to the parts of a slot, and why it takes no message of a client.
use sp_base::Memory;
use thiserror::Error;

/// What a node says of an acknowledgement in a slot, but for its signature: the first that fits.
#[derive(Clone, Copy, Debug, PartialEq, Eq)]
pub enum AckJudged {
    /// Its ends aren't the flow of the slot, or aren't two different nodes, or one is removed.
    BadEnd,
    /// What it acknowledges is acknowledged. Normal where slots overtake one another.
    Old,
    /// It acknowledges what the source hasn't sent, or comes to the destination, which makes it. An attack.
    Ahead,
    New,
}

/// What a node says of a message in a slot, but for its signature: the first that fits.
#[derive(Clone, Copy, Debug, PartialEq, Eq)]
pub enum RelJudged {
    /// Its ends aren't the flow of the slot, or aren't two different nodes, or one is removed.
    BadEnd,
    /// The message is here, or acknowledged. Normal where slots are repeated.
    Old,
    /// The source hasn't sent it. An attack.
    Ahead,
    /// A message before it is missing. Normal where slots are lost.
    Gap,
    /// As many messages wait for their acknowledgement as may.
    Full,
    /// As many messages wait at the destination for its clients as may.
    InboxFull,
    New,
}

/// Why a message isn't taken, or a table isn't made.
#[derive(Clone, Copy, Debug, PartialEq, Eq, Error)]
pub enum RelRefused {
    /// The destination isn't another node, or this node or the destination is removed.
    #[error("the destination isn't another node")]
    BadEnd,
    /// The buffer of the flow holds the messages after `base`, up to `have`, which are as many as it may.
    #[error("the buffer of the flow is full, from {base} to {have}")]
    Full { base: u64, have: u64 },
    /// No memory was left for what the call had to keep.
    #[error("no memory is left")]
    Memory,
}

impl From<Memory> for RelRefused {
    ghost use Rattle.std.specs.Prelude.{◌≡◌};
    ghost use Rattle.sp_rules.specs.declared.rel.RelRefused.TheVariants.{Memory as no_memory};

    ghost from_gives = { λ _ e. e ≡ no_memory };

    fn from(_: Memory) -> Self {
        RelRefused::Memory
    }
}
