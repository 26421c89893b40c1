//! The laws of every run without forgery, over any arts that fit the nodes.
#![tactic(auto)]

ghost use Rattle.laws_runs.specs.Calls.{EachReplyHasWords, FramesAreCounted, FramesAreMade, LinksHaveTheirKeys, NeighboursAreAnswered};
ghost use Rattle.laws_runs.specs.Flows.{FlowsAreKept};
ghost use Rattle.laws_runs.specs.Good.{PlacesAreTold, RunsAreGood};
ghost use Rattle.laws_runs.specs.HeldBoots.{BootsBegin, HeldBootsAreBorn, TurnsKeepBoots};
ghost use Rattle.laws_runs.specs.KeyFiles.{KeyFilesStand};
ghost use Rattle.laws_runs.specs.LifeFlows.{LifeFlowsAreKept, TurnsKeepFlows};
ghost use Rattle.laws_runs.specs.LifeKeys.{KeysRise};
ghost use Rattle.laws_runs.specs.LifeShares.{LifeEvictionsLeaveShares, TurnsKeepShares};
ghost use Rattle.laws_runs.specs.LifeWeights.{LifeWeightsAreKept, TurnsKeepWeights};
ghost use Rattle.laws_runs.specs.LifePriority.{LifePriorityIsKept, TurnsKeepPriority};
ghost use Rattle.laws_runs.specs.Laws.{BoundsFollow, BuffersStayBounded, OnlyTheAdversaryForges};
ghost use Rattle.laws_runs.specs.Priority.{PriorityIsKept};
ghost use Rattle.laws_runs.specs.Shares.{EvictionsLeaveShares};
ghost use Rattle.laws_runs.specs.Signs.{SignsBegin, TurnsKeepSigns};
ghost use Rattle.laws_runs.specs.States.{BeginningsAreClean, CorrectNodesAreThere, OnlyCorrectNodesRun, WhatIsKeptWasSigned};
ghost use Rattle.laws_runs.specs.States.{PastIsDetermined, RunsAreDetermined};
ghost use Rattle.laws_runs.specs.Versions.{DocumentsAreHeld, DocumentsSpread, FramesBringPublished, LaterVersionsFollow, VersionsArePublished};
ghost use Rattle.laws_runs.specs.Weights.{WeightsAreKept};
ghost use Rattle.laws_runs.specs.Crafts.{NoFrameIsForged, OwnCraftsForgeNothing};
ghost use Rattle.laws_runs.specs.Story.{StoriesArePlayed};
ghost use Rattle.laws_runs.specs.Turns.{EachEventHasATurn};
ghost use Rattle.laws_runs.specs.WorkedBounds.{BoundsAreWorked};
ghost use Rattle.laws_runs.specs.WorkedClaims.{LivesAreWorked, NodesAreWorked, PriorityIsWorked, SignaturesAreWorked, WeightsAreWorked};

/// A law: only bytes that the adversary brings are ever forged. A frame that is passed as it was made never is, nor is a document that was handed out.
pub fn only_the_adversary_forges()
    ensures { OnlyTheAdversaryForges }
{}

/// A law: a correct node never has more messages of a flow, or entries of a place, than the header says; and of each flow it has one row with
/// at most one acknowledgement, of each end of each edge at most one update, and to each neighbour at most four messages in flight.
pub fn buffers_stay_bounded()
    ensures { BuffersStayBounded }
{}

/// A law: what a correct node delivered of a correct one is a prefix of what that one sent, under the numbers 1, 2, 3 and so on; and of
/// any source, nothing counts as acknowledged that its correct destination didn't deliver.
pub fn flows_are_kept()
    ensures { FlowsAreKept }
{}

/// A law: a correct node tells its clients no number of a source twice, whoever the source is; and what it tells of a correct source that
/// one sent before.
pub fn priority_is_kept()
    ensures { PriorityIsKept }
{}

/// A law: over starts and stops, what a correct node delivered of a correct one, while it held a boot of it, is a prefix of what that one sent while it held
/// this node's boot, under the numbers 1, 2, 3 and so on; and of any source, nothing counts as acknowledged under two boots that wasn't delivered under them.
pub fn flows_are_kept_over_lives()
    ensures { LifeFlowsAreKept }
{}

/// A law: over starts and stops, a correct node tells its clients no number of a source twice under one boot of each, whoever the source is; and what it tells
/// of a correct source that one sent under that boot.
pub fn priority_is_kept_over_lives()
    ensures { LifePriorityIsKept }
{}

/// A law: at a correct node the weight of a link is the greatest of its minimum and the last that the node held of each end; and what it held of
/// a correct end that one signed.
pub fn weights_are_kept()
    ensures { WeightsAreKept }
{}

/// A law: over starts and stops, each eviction takes the first entry of lowest priority of the source that has most since the node's last start, and leaves
/// that source at least its share.
pub fn evictions_leave_shares_over_lives()
    ensures { LifeEvictionsLeaveShares }
{}

/// A law: over starts and stops, the weight of a link at a correct node is the greatest of its minimum and the last that the node held of each end since its
/// last start; and what it held of a correct end in any life that one said.
pub fn weights_are_kept_over_lives()
    ensures { LifeWeightsAreKept }
{}

/// A law: in a run with epochs each node that runs is started and runs once, and has the boot and the bound of its key file.
pub fn key_files_stand()
    ensures { KeyFilesStand }
{}

/// A law: with epochs each node that runs holds the boot of its own life, and of a correct node no boot above the last one that this one took; so who holds
/// the boot of a node's last start keeps it until that node starts again. Without epochs each holds 0 of each.
pub fn held_boots_are_born()
    ensures { HeldBootsAreBorn }
{}

/// A law: over starts and stops, no one-time index of a correct node signs twice, and its boots rise.
pub fn keys_rise()
    ensures { KeysRise }
{}

/// A law: after each event exactly the correct nodes have a state, each as the header made it. With epochs only correct nodes have one, each as the
/// header makes it for the boot of its life.
pub fn correct_nodes_are_there()
    ensures there { CorrectNodesAreThere }
    ensures only { OnlyCorrectNodesRun }
{}

/// A law: whatever a correct node keeps, and whatever its frames carry, bears its signer's valid signature, and was signed by it in this
/// run where that node is correct.
pub fn what_is_kept_was_signed()
    ensures { WhatIsKeptWasSigned }
{}

/// A law: every beginning of a run without forgery is one. So what the other laws say holds after each event.
pub fn beginnings_are_clean()
    ensures { BeginningsAreClean }
{}

/// A law: each eviction takes the first entry of lowest priority of the source that has most, and leaves that source at least its share.
pub fn evictions_leave_shares()
    ensures { EvictionsLeaveShares }
{}

/// A law: what the effects of a correct node say that each of its places holds is what it has there.
pub fn places_are_told()
    ensures { PlacesAreTold }
{}

/// A law: no event of a run without forgery breaks a promise that an auditor asks for.
pub fn runs_are_good()
    ensures { RunsAreGood }
{}

/// A law: the events of a run and their journal lead to one world: to one state of each node, and to the same frames; and to one past, so to the same boots
/// that the nodes held which sent and delivered.
pub fn events_and_journal_determine_a_run()
    ensures world { RunsAreDetermined }
    ensures past { PastIsDetermined }
{}

/// A law: a correct node answers polls and datagrams of each of its neighbours, after fewer events than a node answers calls.
pub fn neighbours_are_answered()
    ensures { NeighboursAreAnswered }
{}

/// A law: each answer to an event in its range has words. So no event calls a node with wrong ends, wants indexes that aren't reserved, or
/// wears a node out.
pub fn each_reply_has_words()
    ensures { EachReplyHasWords }
{}

/// A law: both ends of an edge have its key for their tags, after each event.
pub fn links_have_their_keys()
    ensures { LinksHaveTheirKeys }
{}

/// A law: a direction has as many frames as polls, and a journal as many entries as events.
pub fn frames_are_counted()
    ensures { FramesAreCounted }
{}

/// A law: each frame of a direction was made by its node for its neighbour, in a state within its bounds.
pub fn frames_are_made()
    ensures { FramesAreMade }
{}

/// A law: after a run without forgery of fewer events than a node answers calls, each event in its range has a turn, where messages have a choice of paths.
/// So no event of a schedule is left without one.
pub fn each_event_has_a_turn()
    ensures { EachEventHasATurn }
{}

/// A law: what a compromised node crafts of good messages in the names of compromised nodes is never forged. So a schedule whose crafts are all
/// such names no forgery by them.
pub fn own_crafts_forge_nothing()
    ensures { OwnCraftsForgeNothing }
{}

/// A law: an injected datagram that is no frame, by its length, its name or its version, is never forged.
pub fn no_frame_is_forged()
    ensures { NoFrameIsForged }
{}

/// A law: no correct node runs under a version of the topology that the administrator didn't hand out, whatever compromised nodes bring; nor under other
/// weights of it. A node that starts anew runs under the first one.
pub fn versions_are_published()
    ensures { VersionsArePublished }
{}

/// A law: each correct node holds the document of the version that it runs under, with the administrator's signature.
pub fn documents_are_held()
    ensures { DocumentsAreHeld }
{}

/// A law: of two correct nodes, the topology of the one with the higher version follows that of the other, however many versions lie between. So a node that
/// missed some, or that started anew, can take the last.
pub fn later_versions_follow()
    ensures { LaterVersionsFollow }
{}

/// A law: a frame of a correct node has no document, or one of a version that the administrator handed out.
pub fn frames_bring_published()
    ensures { FramesBringPublished }
{}

/// A law: the document of a node goes over a hop. Where a neighbour is known to run under an older version, the next frame has it; and where that one comes
/// through and is fresh, the neighbour runs under the greater version of both. Over a withdrawn edge too.
pub fn documents_spread()
    ensures { DocumentsSpread }
{}

/// The part on signed objects, on versions and documents, and what nodes are: it holds at the start, and each turn of which nothing is forged keeps it.
pub fn turns_keep_what_is_signed()
    ensures begin { SignsBegin }
    ensures turn { TurnsKeepSigns }
{}

/// The part on boots that nodes hold: it holds at the start, and each turn of which nothing is forged keeps it, where key files and signed objects are as the
/// parts on them say.
pub fn turns_keep_held_boots()
    ensures begin { BootsBegin }
    ensures turn { TurnsKeepBoots }
{}

/// The part on flows: each turn of which nothing is forged keeps it, where key files, signed objects and held boots are as the laws on them say.
pub fn turns_keep_flows()
    ensures { TurnsKeepFlows }
{}

/// The part on priority messages: each turn of which nothing is forged keeps it, where key files, signed objects and held boots are as the parts on them say.
pub fn turns_keep_priority()
    ensures { TurnsKeepPriority }
{}

/// The part on weights: each turn of which nothing is forged keeps it, where key files and signed objects are as the parts on them say, and the claims
/// follow from it.
pub fn turns_keep_weights()
    ensures { TurnsKeepWeights }
{}

/// The part on places: each turn of which nothing is forged keeps it, where key files and signed objects are as the parts on them say, and each eviction
/// leaves a share.
pub fn turns_keep_shares()
    ensures { TurnsKeepShares }
{}

/// The bounds follow from what each turn keeps of nodes.
pub fn bounds_follow()
    ensures { BoundsFollow }
{}

/// A law: three worked stories over toy arts are computed: the first message and its acknowledgement, an object that is forged, and the same one
/// where its signer signed it before.
pub fn stories_are_played()
    ensures { StoriesArePlayed }
{}

/// A law: what the claims say of small states and runs, both ways: the bounds of a node with two messages a flow and four entries a store, in numbers; who is
/// there, priority messages, weights after two updates, what is signed, and the indexes and priority messages of two lives. States, journals and pasts that
/// break one are refused.
pub fn claims_are_worked()
    ensures bounds { BoundsAreWorked }
    ensures nodes { NodesAreWorked }
    ensures priority { PriorityIsWorked }
    ensures weights { WeightsAreWorked }
    ensures signatures { SignaturesAreWorked }
    ensures lives { LivesAreWorked }
{}
