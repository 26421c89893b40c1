// Laws of whole journals and their texts.
ghost use Rattle.sp_journal_reading.specs.TextLaws.{GoodJournalsAreRead, JournalsAreOfTheirText, NoOtherBeginsThere, OneReading};

/// A law: a journal that is read is good, and the text is its text.
pub fn a_journal_is_of_its_text()
    ensures { JournalsAreOfTheirText }
{}

/// A law: the text of a good journal is read as just this journal.
pub fn a_good_journal_is_read()
    ensures { GoodJournalsAreRead }
{}

/// A law: a text has one reading: one journal, or one first bad line.
pub fn a_journal_text_has_one_reading()
    ensures { OneReading }
{}

/// A law: where a text begins with that of a good journal, it begins with that of no other, whatever follows.
pub fn no_other_journal_begins_there()
    ensures { NoOtherBeginsThere }
{}
