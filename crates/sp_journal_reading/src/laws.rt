// Laws of the lines of a journal.
ghost use Rattle.sp_journal_reading.specs.Laws.{EffectsHaveOneLine, EntriesHaveOneLine, RepliesHaveOneLine};

/// A law: words are read as an effect exactly where they are the effect's words, and the effect is in its ranges.
pub fn effects_have_one_line()
    ensures { EffectsHaveOneLine }
{}

/// A law: words are read as a reply exactly where they are the reply's words, and the reply is good.
pub fn replies_have_one_line()
    ensures { RepliesHaveOneLine }
{}

/// A law: words are read as the number and the reply of an entry exactly where they are these, and both are good.
pub fn entries_have_one_line()
    ensures { EntriesHaveOneLine }
{}
