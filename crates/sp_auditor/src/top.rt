// The top call: what the words say and the two files go in, the status comes out.
ghost use Rattle.std.specs.Prelude.{◌≡◌, ◌≢◌, ◌⊎◌, Err, IfOk, Ok, false};
ghost use Rattle.sp_auditor.specs.Answers.{reads_journal, reads_schedule};
ghost use Rattle.sp_auditor.specs.Ends.{Ends, IsTold};
ghost use Rattle.sp_auditor.specs.Lines.{usage_line};
ghost use Rattle.sp_outside.specs.Causes.{Rose};
ghost use Rattle.sp_words.specs.AuditLines.{IsInRange};

use crate::reading::{Unread, answered};
use crate::{AuditLine, AuditStatus, WordsRefused};
use sp_outside::{Sink, Source, write_all};
use std::alloc::Global;

/// Does what the words say over the files that they name.
///
/// `run SCHEDULE JOURNAL` writes `kept` where no event of the run that the two files tell breaks a promise, else `broken` with the first event that does.
/// `rounds SCHEDULE --path U,V,W --from N` writes how many complete rounds of these nodes follow one after another, from this event on. `schedule SCHEDULE`
/// and `journal JOURNAL` write the text of a good file again. A bad line of a file, or what can't be judged, is told in its place. All other words are refused
/// as a usage fault.
pub fn run<S: Source, J: Source, K: Sink>(
    alloc: Global,
    said: &Result<AuditLine<'_>, WordsRefused>,
    schedule: &mut S,
    journal: &mut J,
    sink: &mut K,
) -> AuditStatus
    requires { IfOk said.now IsInRange }
    // What is written, and the status, are the answer to what the words say about what the files hold, or tell which file couldn't be read.
    ensures ends { Ends said.now (record { left = S.left schedule.old; before = S.faults schedule.old; after = S.faults schedule.new })
        (record { left = J.left journal.old; before = J.faults journal.old; after = J.faults journal.new })
        result (K.contents sink.old) (K.contents sink.new) }

    // A file that the words don't name isn't read.
    ensures no_schedule { IfOk said.now (λ line. reads_schedule line ≡ false → schedule.new ≡ schedule.old) }
    ensures no_journal { IfOk said.now (λ line. reads_journal line ≡ false → journal.new ≡ journal.old) }
    ensures no_file { (e : WordsRefused) → said.now ≡ Err e → (schedule.new ≡ schedule.old) × (journal.new ≡ journal.old) }
    ensures quiet { result ≡ AuditStatus.Memory → sink.new ≡ sink.old }

    // A status that tells a fault comes only with one.
    ensures read { result ≡ AuditStatus.Source
        → Rose (S.faults schedule.old) (S.faults schedule.new) ⊎ Rose (J.faults journal.old) (J.faults journal.new) }
    ensures sunk { result ≢ AuditStatus.Sink → K.faults sink.new ≡ K.faults sink.old }
    ensures write { result ≡ AuditStatus.Sink → Rose (K.faults sink.old) (K.faults sink.new) }
{
    match said {
        Ok(line) => match answered(alloc, line, schedule, journal) {
            Ok(answer) => tell(sink, answer.text.as_bytes(), answer.status),
            Err(Unread::Schedule) => tell(sink, b"schedule unreadable\n", AuditStatus::Source),
            Err(Unread::Journal) => tell(sink, b"journal unreadable\n", AuditStatus::Source),
            Err(Unread::Memory) => AuditStatus::Memory,
        },
        Err(refused) => refusal(*refused, sink),
    }
}

/// Writes that the words are no command, unless there was no memory for them.
fn refusal<K: Sink>(refused: WordsRefused, sink: &mut K) -> AuditStatus
    ensures usage { refused ≡ WordsRefused.Usage → IsTold AuditStatus.Usage usage_line result (K.contents sink.old) (K.contents sink.new) }
    ensures memory { refused ≡ WordsRefused.Memory → (result ≡ AuditStatus.Memory) × (sink.new ≡ sink.old) }
    ensures status { (result ≡ AuditStatus.Usage) ⊎ ((result ≡ AuditStatus.Sink) ⊎ (result ≡ AuditStatus.Memory)) }
    ensures quiet { result ≡ AuditStatus.Memory → sink.new ≡ sink.old }
    ensures sunk { result ≢ AuditStatus.Sink → K.faults sink.new ≡ K.faults sink.old }
    ensures write { result ≡ AuditStatus.Sink → Rose (K.faults sink.old) (K.faults sink.new) }
{
    match refused {
        WordsRefused::Usage => tell(sink, b"usage\n", AuditStatus::Usage),
        WordsRefused::Memory => AuditStatus::Memory,
    }
}

/// Writes a text, with which the run ends so.
fn tell<K: Sink>(sink: &mut K, text: &[u8], status: AuditStatus) -> AuditStatus
    requires { status ≢ AuditStatus.Sink }
    ensures told { IsTold status text.now result (K.contents sink.old) (K.contents sink.new) }
    ensures others { result ≢ AuditStatus.Sink → result ≡ status }
    ensures sunk { result ≢ AuditStatus.Sink → K.faults sink.new ≡ K.faults sink.old }
    ensures write { result ≡ AuditStatus.Sink → Rose (K.faults sink.old) (K.faults sink.new) }
{
    match write_all(sink, text) {
        Ok(()) => status,
        Err(_) => AuditStatus::Sink,
    }
}
