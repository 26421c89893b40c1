// How the auditor ends: a status with its number.
ghost use Rattle.std.specs.Prelude.{◌≡◌};
ghost use Rattle.sp_words.specs.AuditStatuses.{audit_code_of};

/// How a run of the auditor ended. Each status has the number with which the program ends: where the main program has one for the same, it is that one.
#[derive(Clone, Copy, Debug, PartialEq, Eq)]
pub enum AuditStatus {
    /// 0: the command was done. Of `run` no event breaks a promise.
    Done,
    /// 2: the words are no command. The last line written is `usage`.
    Usage,
    /// 3: a file is refused, or what is asked of it. The last line written names the file and why it is refused.
    Refused,
    /// 5: a file couldn't be read. The last line written names it.
    Source,
    /// 6: the sink failed in this run.
    Sink,
    /// 9: no memory was left.
    Memory,
    /// 14: an event breaks a promise. The last line written has the first one that does.
    Broken,
}

impl AuditStatus {
    /// The number with which the program ends.
    pub fn code(self) -> u8
        ensures { result ≡ audit_code_of self }
    {
        match self {
            AuditStatus::Done => 0,
            AuditStatus::Usage => 2,
            AuditStatus::Refused => 3,
            AuditStatus::Source => 5,
            AuditStatus::Sink => 6,
            AuditStatus::Memory => 9,
            AuditStatus::Broken => 14,
        }
    }
}
