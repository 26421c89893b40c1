// Laws of turns and their recordings.
ghost use Rattle.sp_service_turns.specs.Recorded.{RecordingsAreWritten};
ghost use Rattle.sp_service_turns.specs.TurnLaws.{KeyFilesEndLate, NothingAgreesAndDiffers};
ghost use Rattle.sp_service_turns.specs.Verified.{RecordingsAgree};

use crate::node::Core;

/// A law: whatever turns a daemon made, the lines of them agree with the steps of its node.
pub fn recordings_agree<N: Core>()
    ensures { RecordingsAgree N.steps N.indexes }
{}

/// A law: what a daemon writes is the text of its recording.
pub fn recordings_are_written()
    ensures { RecordingsAreWritten }
{}

/// A law: of a node whose answers are determined no recording agrees that also differs.
pub fn no_recording_agrees_and_differs<N: Core>()
    ensures { NothingAgreesAndDiffers N.steps }
{}

/// A law: a key file ends a daemon only where few indexes are left and more could be reserved, and but for a fault only at its last serial.
pub fn key_files_end_late()
    ensures { KeyFilesEndLate }
{}
