//! What the laws of runs ask of arts and of settings, proved of this format and of what a schedule's header makes; and so counted delivery for every schedule.
#![tactic(auto)]

ghost use Rattle.laws_runs_format.specs.Audited.{ClaimedRunsPassAudits, RunsPassAudits};
ghost use Rattle.laws_runs_format.specs.ComesThrough.{FormatComesThrough};
ghost use Rattle.laws_runs_format.specs.Delivery.{SchedulesDeliver, SchedulesDeliverInLives, SchedulesReturn, SchedulesReturnInLives};
ghost use Rattle.laws_runs_format.specs.Delivery.{SchedulesTellStarts};
ghost use Rattle.laws_runs_format.specs.FormatCarries.{FormatCarries};
ghost use Rattle.laws_runs_format.specs.Headline.{EveryLife, EveryRun};
ghost use Rattle.laws_runs_format.specs.Headers.{HeadersFit, PlainHeadersFit, SignaturesAreLong, TopologiesFit};
ghost use Rattle.laws_runs_format.specs.Hostile.{OnlyHostileEventsAreForged};
ghost use Rattle.laws_runs_format.specs.Journals.{JournalsAreCountable};
ghost use Rattle.laws_runs_format.specs.Frames.{FramesHaveTheirLength};
ghost use Rattle.laws_runs_format.specs.Schedules.{ScheduledEventsAreInRange};
ghost use Rattle.laws_runs_format.specs.Spreading.{FormatBringsDocuments, SchedulesSpreadVersions};
ghost use Rattle.laws_runs_format.specs.Turns.{EachRequestHasAChoice, ScheduledEventsHaveTurns};
ghost use Rattle.laws_runs_format.specs.Unforged.{GeneratedForgeNothing, HarmlessSchedulesForgeNothing};

/// A law: what this format writes is read back, and all of it is bytes: frames, tags and signatures, and what is read of bytes. That is good too.
pub fn this_format_carries_bytes()
    ensures { FormatCarries }
{}

/// A law: a frame that this format writes, with signatures of either height, passes each test at the other end of its edge.
pub fn this_format_comes_through()
    ensures { FormatComesThrough }
{}

/// A law: where a header is in its ranges, so is the topology that it makes, and the setting fits this format. Signatures of every node
/// have one length.
pub fn headers_fit()
    ensures topology { TopologiesFit }
    ensures setting { HeadersFit }
    ensures plain { PlainHeadersFit }
    ensures signatures { SignaturesAreLong }
{}

/// The headline: of every run of a schedule without forgery, after each of its events, deliveries are a prefix of what was sent, in plain flows and in those
/// on paths, priority messages are authentic and come once, buffers are bounded, evictions leave fair shares, weights are what their ends said, and what
/// either accepted is delivered after a counted number of rounds of a correct path, within a version. So it is without epochs. Where nodes start and
/// stop, the same holds of each pair of lives of two nodes, only correct nodes run, with the boots and bounds of their key files, no index signs twice, and
/// each version of the topology that a correct node runs under was handed out.
pub fn every_run()
    ensures plain { EveryRun }
    ensures lives { EveryLife }
{}

/// A law: an auditor, who knows the events and the journal alone, finds no broken promise in any run of a schedule without forgery; and so in none that
/// the headline is true of.
pub fn runs_pass_audits()
    ensures runs { RunsPassAudits }
    ensures claimed { ClaimedRunsPassAudits }
{}

/// A law: a run's journal has an entry for each event, which tells no more deliveries than a frame has bytes.
pub fn journals_are_countable()
    ensures { JournalsAreCountable }
{}

/// A law: each frame that a correct node made has at least 76 bytes, and fits a datagram.
pub fn frames_have_their_length()
    ensures { FramesHaveTheirLength }
{}

/// A law: each event of a good schedule may come where it stands, in a run of its header's setting.
pub fn scheduled_events_are_in_range()
    ensures { ScheduledEventsAreInRange }
{}

/// A law: an event of which something is forged, after a run in which nothing is, is the adversary's: a changed bit, injected bytes, or a craft.
pub fn only_hostile_events_are_forged()
    ensures { OnlyHostileEventsAreForged }
{}

/// A law: nothing of a good schedule is forged whose injected bytes are no frames, whose crafts are by compromised nodes in the names of such, and that
/// changes no bits.
pub fn harmless_schedules_forge_nothing()
    ensures { HarmlessSchedulesForgeNothing }
{}

/// A law: nothing of the schedule of a number is forged.
pub fn generated_forge_nothing()
    ensures { GeneratedForgeNothing }
{}

/// A law: in the setting of every header in its ranges, what a source accepted for a flow of either kind is delivered, and what a destination acknowledged has
/// returned, after so many complete rounds of a path whose nodes run under one version meanwhile. Where nodes start and stop so it is in the lives of a path
/// that stays up, once its nodes hold the boots of its ends: after so many rounds that tell starts they do.
pub fn schedules_deliver_in_rounds()
    ensures delivered { SchedulesDeliver }
    ensures returned { SchedulesReturn }
    ensures told { SchedulesTellStarts }
    ensures delivered_in_lives { SchedulesDeliverInLives }
    ensures returned_in_lives { SchedulesReturnInLives }
{}

/// A law: a frame of this format with a document begins as one at the other end of its edge; and so in the setting of every header in its
/// ranges whose topology may change, what is published at a node of a path that stays up comes to all of them in hops + 1 rounds.
pub fn versions_spread_over_schedules()
    ensures documents { FormatBringsDocuments }
    ensures spread { SchedulesSpreadVersions }
{}

/// A law: whatever the weights are, a message of priority or on paths has a choice of its edges; and so each event that may come in a run of a schedule has a
/// turn.
pub fn events_have_turns()
    ensures choices { EachRequestHasAChoice }
    ensures turns { ScheduledEventsHaveTurns }
{}
