// Laws of verdicts.
ghost use Rattle.sp_auditor.specs.Laws.{NoCauseBesideAVerdict, OneVerdict, TextsHaveTheirVerdict};

/// A law: two files have one verdict.
pub fn a_run_has_one_verdict()
    ensures { OneVerdict }
{}

/// A law: where a run is judged there is no cause why it isn't.
pub fn no_cause_beside_a_verdict()
    ensures { NoCauseBesideAVerdict }
{}

/// A law: the texts of a run have a verdict by its events and entries alone: kept exactly where none of them breaks a promise, and broken at the first that
/// does.
pub fn texts_have_their_verdict()
    ensures { TextsHaveTheirVerdict }
{}
