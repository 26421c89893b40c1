// The names of the files that a command line reads.
ghost use Rattle.std.specs.Prelude.{◌≡◌, Ok, is_some};
ghost use Rattle.sp_auditor.specs.Answers.{reads_journal, reads_schedule};
ghost use Rattle.sp_words.specs.declared.audit_line.AuditLine.{AuditLine};

use sp_auditor::{AuditLine, WordsRefused};

/// The name of each file, where the command line reads it.
#[derive(Clone, Copy, Debug)]
pub struct Names<'a> {
    pub schedule: Option<&'a str>,
    pub journal: Option<&'a str>,
}

impl<'a> Names<'a> {
    /// The names that the words say.
    pub fn of(said: &Result<AuditLine<'a>, WordsRefused>) -> Names<'a>
        ensures schedule { (line : AuditLine) → said.now ≡ Ok line → is_some result.schedule ≡ reads_schedule line }
        ensures journal { (line : AuditLine) → said.now ≡ Ok line → is_some result.journal ≡ reads_journal line }
    {
        let (schedule, journal) = match said {
            Ok(AuditLine::Run { schedule, journal }) => (Some(*schedule), Some(*journal)),
            Ok(AuditLine::Rounds(query)) => (Some(query.schedule), None),
            Ok(AuditLine::Schedule { schedule }) => (Some(*schedule), None),
            Ok(AuditLine::Journal { journal }) => (None, Some(*journal)),
            Err(_) => (None, None),
        };
        Names { schedule, journal }
    }
}
