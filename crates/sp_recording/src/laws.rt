// Laws of lines and readings, each proved of all texts and recordings.
ghost use Rattle.sp_recording.specs.Laws.{GoodRecordingsAreRead, LinesHaveOneSpelling, OneReading, ReadingsAreOfTheirText};

/// A law: words are read as a line exactly where they are the line's words, and the line is in its ranges.
pub fn lines_have_one_spelling()
    ensures { LinesHaveOneSpelling }
{}

/// A law: what was read is good and stands at the front of the text. Nothing follows where the text is whole, else the bad line does.
pub fn a_reading_is_of_its_text()
    ensures { ReadingsAreOfTheirText }
{}

/// A law: the text of a good recording is read whole, to just this recording.
pub fn a_good_recording_is_read()
    ensures { GoodRecordingsAreRead }
{}

/// A law: a text has one reading: what its good lines say, and one first bad line.
pub fn a_text_has_one_reading()
    ensures { OneReading }
{}
