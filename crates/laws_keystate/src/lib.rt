//! What holds over every history of a key file, whatever moments its starts were stopped at: no one-time key signs twice.
#![tactic(auto)]

ghost use Rattle.laws_keystate.specs.Calls.{ABootIsAnAct, ACrashLeavesWhatAStartMay, AReserveIsAnAct, AnOpenBegins};
ghost use Rattle.laws_keystate.specs.Disks.{AReadGivesAnImage, ASyncLeavesOneImage, AWriteTakesNoImage, AnyBytesMayStand};
ghost use Rattle.laws_keystate.specs.Laws.{AStartSignsWhatItReserved, AnUpperLeafSignsOneKey, BootsRise, EveryFileIsSound};
ghost use Rattle.laws_keystate.specs.Laws.{AHistorySigns, IndexesRise, NoIndexSignsTwoMessages, NoKeySignsTwoMessages};
ghost use Rattle.laws_keystate.specs.RunLaws.{ARunIsAStart, ARunSigns, EachMomentIsOfARun, NoRunSignsAgain, RunsAreAHistory};
ghost use Rattle.laws_keystate.specs.RunLaws.{StartsSign, TurnsSign};

use sp_service_turns::Core;

/// A law: every file of a history is sound, so no crash takes its numbers back.
pub fn every_file_of_a_history_is_sound()
    ensures { EveryFileIsSound }
{}

/// A law: the indexes that are signed rise, from start to start.
pub fn indexes_rise_over_all_starts()
    ensures { IndexesRise }
{}

/// A law: no index signs two messages.
pub fn no_index_signs_two_messages()
    ensures { NoIndexSignsTwoMessages }
{}

/// A law: no one-time key of the seed, of an upper or of a lower tree, signs two messages.
pub fn no_key_signs_two_messages()
    ensures { NoKeySignsTwoMessages }
{}

/// A law: upper leaf t signs the public key of lower tree t, and nothing else.
pub fn an_upper_leaf_signs_one_key()
    ensures { AnUpperLeafSignsOneKey }
{}

/// A law: a start signs only from the bound that it found, and below the bound of a reserve that returned.
pub fn a_start_signs_what_it_reserved()
    ensures { AStartSignsWhatItReserved }
{}

/// A law: no boot is given twice.
pub fn boots_rise_over_all_starts()
    ensures { BootsRise }
{}

/// A law: there are histories that sign, so what is said of every history is said of something.
pub fn a_history_signs()
    ensures { AHistorySigns }
{}

/// A law: an `open` that finds a state begins a start.
pub fn an_open_begins_a_start()
    ensures { AnOpenBegins }
{}

/// A law: what `reserve` promises is an act of a start.
pub fn a_reserve_is_an_act()
    ensures { AReserveIsAnAct }
{}

/// A law: what `next_boot` promises is an act of a start.
pub fn a_boot_is_an_act()
    ensures { ABootIsAnAct }
{}

/// A law: a crash at any moment of either leaves what a start may leave.
pub fn a_crash_leaves_what_a_start_may()
    ensures { ACrashLeavesWhatAStartMay }
{}

/// A law: a daemon's run, stopped at any moment, is one start of a history.
pub fn a_run_is_a_start<N: Core>()
    ensures { ARunIsAStart N.steps N.indexes }
{}

/// A law: runs of daemons one after another on one key file are a history.
pub fn runs_are_a_history<N: Core>()
    ensures { RunsAreAHistory N.steps N.indexes }
{}

/// A law: over all of them no index signs two messages.
pub fn no_run_signs_again<N: Core>()
    ensures { NoRunSignsAgain N.steps N.indexes }
{}

/// A law: whatever a crash leaves at any moment of a daemon, a run so far leaves that signed what the daemon's node had signed at its start and in its whole
/// turns.
pub fn each_moment_is_of_a_run<N: Core>()
    ensures { EachMomentIsOfARun N.steps N.indexes }
{}

/// A law: of each start there is something that was signed at it, or nothing.
pub fn starts_sign()
    ensures { StartsSign }
{}

/// A law: of each turn there is something that was signed in it, or nothing.
pub fn turns_sign<N: Core>()
    ensures { TurnsSign N.steps N.indexes }
{}

/// A law: there are runs that sign, so what is said of every run is said of something.
pub fn a_run_signs()
    ensures { ARunSigns }
{}

/// A law: what a read gives is an image.
pub fn a_read_gives_an_image()
    ensures { AReadGivesAnImage }
{}

/// A law: after a sync what a read gives is the only image.
pub fn a_sync_leaves_one_image()
    ensures { ASyncLeavesOneImage }
{}

/// A law: each image before a write is one after it, so a crash during the write leaves no other.
pub fn a_write_takes_no_image()
    ensures { AWriteTakesNoImage }
{}

/// A law: where bytes were written and not synced any others may stand, but for one that was written over itself.
pub fn any_bytes_may_stand()
    ensures { AnyBytesMayStand }
{}
