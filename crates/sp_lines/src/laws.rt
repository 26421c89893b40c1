// Laws of rows, proved once for every table.
ghost use Rattle.sp_lines.specs.Laws.{RowsHaveOneSpelling};

/// A law: values in the ranges of a row are read from the words that spell them, and from no others.
pub fn rows_have_one_spelling()
    ensures { RowsHaveOneSpelling }
{}
