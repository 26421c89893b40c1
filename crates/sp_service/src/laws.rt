// Laws of the runs of daemons on one key file.
ghost use Rattle.sp_service.specs.KeyLaws.{DaemonsAreRuns, NoDaemonSignsAgain};

/// A law: whatever a crash leaves of the key file at any moment of a daemon, a run so far leaves, which is one start of a history.
pub fn daemons_are_runs()
    ensures { DaemonsAreRuns }
{}

/// A law: over all runs of daemons on one key file no index signs two messages.
pub fn no_daemon_signs_again()
    ensures { NoDaemonSignsAgain }
{}
