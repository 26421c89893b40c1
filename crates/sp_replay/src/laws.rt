// What follows of a replay from what is claimed of it.
ghost use Rattle.sp_replay.specs.Laws.{AllButTheLastIsWritten, EmptyTextsAreRefused, ForgeriesLeaveOthers, HarmlessSchedulesAreRun, NothingReadIsNothingDone};

/// A law: a schedule of harmless events, without epochs, is run to its end, unless something outside fails or there is no memory; and an empty text is refused.
pub fn what_a_replay_must_do()
    ensures run { HarmlessSchedulesAreRun }
    ensures refused { EmptyTextsAreRefused }
{}

/// A law: where the source failed before its first byte nothing was done and nothing written; where the sink failed, the journal of all events but the last
/// was written.
pub fn what_a_replay_had_done()
    ensures nothing { NothingReadIsNothingDone }
    ensures all_but_the_last { AllButTheLastIsWritten }
{}

/// A law: a forgery is the adversary's, and leaves all frames and all nodes but the one that acted in its event.
pub fn what_a_forgery_leaves()
    ensures { ForgeriesLeaveOthers }
{}
