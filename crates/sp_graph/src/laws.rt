// Laws of the texts of graphs, each proved of all texts.
ghost use Rattle.sp_graph.specs.Readings.{FormatsAreSaid, OneReading, TextsAreRead};

/// A law: a text says a graph exactly where it is the graph's text in the format that it says, and the graph is in its ranges.
pub fn graphs_are_read_from_their_texts()
    ensures read { TextsAreRead }
    ensures format { FormatsAreSaid }
{}

/// A law: a text says one graph, or is refused at one line and for one reason.
pub fn a_text_has_one_reading()
    ensures { OneReading }
{}
