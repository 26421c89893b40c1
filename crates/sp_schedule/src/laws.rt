// Laws of readings, each proved of all texts and schedules.
ghost use Rattle.sp_schedule.specs.Laws.{GoodTextsAreRead, NoOtherBeginsThere, OneReading, PiecesAreReadAsOne, ReadingsAreOfTheirText};

/// A law: what was read of a whole text is the schedule that the text spells.
pub fn a_reading_is_of_its_text()
    ensures { ReadingsAreOfTheirText }
{}

/// A law: the text of a schedule is read whole, to just this schedule.
pub fn a_good_text_is_read()
    ensures { GoodTextsAreRead }
{}

/// A law: a text has one reading: what its good lines say, one first bad line, and one kind.
pub fn a_text_has_one_reading()
    ensures { OneReading }
{}

/// A law: where a text begins with that of a schedule, it begins with that of no other, whatever follows.
pub fn no_other_text_begins_there()
    ensures { NoOtherBeginsThere }
{}

/// A law: however a text is cut into pieces, what a feed of them reads is the reading of the whole.
pub fn pieces_are_read_as_one()
    ensures { PiecesAreReadAsOne }
{}
