// Laws of every history of the key states of a world.
ghost use Rattle.sp_epoch.specs.Laws.{NothingIsGivenTwice, SomeCallsAreAHistory};

/// A law: over all starts and reserves no boot and no index is given twice to a node.
pub fn nothing_is_given_twice()
    ensures { NothingIsGivenTwice }
{}

/// A law: there is a history that gives boots and indexes, so what is said of every history is said of something.
pub fn some_calls_are_a_history()
    ensures { SomeCallsAreAHistory }
{}
