// A journal, read from a text.
ghost use Rattle.std.specs.Prelude.{◌≤◌, IfOk, length};
ghost use Rattle.sp_auditor.specs.declared.journal.TheConstants.{MAX_JOURNAL_BYTES};
ghost use Rattle.sp_auditor.specs.Texts.{IsToldIn};

use sp_base::{Listed, Memory};
use sp_journal::Entry;
use sp_journal_reading::{JournalRefused, read};
use std::alloc::Global;

/// A longer journal isn't read: its lines have numbers of 32 bits.
pub const MAX_JOURNAL_BYTES: usize = 4_294_967_294;

/// What a text is as a journal.
#[derive(Debug, Drop)]
pub enum Told {
    Journal(Listed<Entry>),
    /// Its first bad line.
    Bad { line: u32 },
    Long,
}

/// The journal of a text, or why it is none. A text that `is_cut` had more bytes.
pub fn told_in(alloc: Global, text: &[u8], is_cut: bool) -> Result<Told, Memory>
    requires { length text.now ≤ MAX_JOURNAL_BYTES }
    ensures { IfOk result (IsToldIn (record { text = text.now; is_cut = is_cut })) }
{
    if is_cut {
        return Ok(Told::Long);
    }
    match read(alloc, text) {
        Ok(journal) => Ok(Told::Journal(journal)),
        Err(JournalRefused::Form { line }) => Ok(Told::Bad { line }),
        Err(JournalRefused::Memory) => Err(Memory),
    }
}
