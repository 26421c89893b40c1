// How the program ends: a status with its number.
ghost use Rattle.std.specs.Prelude.{◌≡◌};
ghost use Rattle.sp_words.specs.Statuses.{code_of};

/// How a run ended. Each status has the number with which the program ends.
#[derive(Clone, Copy, Debug, PartialEq, Eq)]
pub enum Status {
    /// 0: the command was done.
    Done,
    /// 2: the words are no command. The last line written is `usage`.
    Usage,
    /// 3: the input is refused. The last line written names the first bad line, or 0, and why it is refused.
    Refused,
    /// 4: something is forged that only a broken tag or signature could have made. The last line written names the event, and what of it is.
    Forged,
    /// 5: the source failed in this run.
    Source,
    /// 6: the sink failed in this run.
    Sink,
    /// 7: the wire couldn't be opened. The last line written is `wire`.
    Wire,
    /// 8: the key file failed in this run. The last line written is `keeper`.
    Keeper,
    /// 9: no memory was left.
    Memory,
    /// 10: a digest of a recording isn't that of the node's answer. The last line written has its line and both digests.
    Mismatch,
    /// 11: a question had no reply in its turns. The last line written is `unanswered` with their number.
    Unanswered,
    /// 12: there are fewer disjoint paths than were asked for. The last line written has the parts of the smallest cut.
    Fewer,
    /// 13: the key file gives no start or no more indexes, or is formatted already. The last line written is `keystate` with the word for it.
    KeyState,
}

impl Status {
    /// The number with which the program ends.
    pub fn code(self) -> u8
        ensures { result ≡ code_of self }
    {
        match self {
            Status::Done => 0,
            Status::Usage => 2,
            Status::Refused => 3,
            Status::Forged => 4,
            Status::Source => 5,
            Status::Sink => 6,
            Status::Wire => 7,
            Status::Keeper => 8,
            Status::Memory => 9,
            Status::Mismatch => 10,
            Status::Unanswered => 11,
            Status::Fewer => 12,
            Status::KeyState => 13,
        }
    }
}
