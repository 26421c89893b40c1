// What ties `disjoint` and `check` together, for any graph and any paths.
ghost use Rattle.sp_paths.specs.Laws.{AcceptedIsLeast, FoundIsAccepted};

/// A law: `check` is true of all that `disjoint` gives.
pub fn what_is_found_is_accepted()
    ensures { FoundIsAccepted }
{}

/// A law: where `check` is true, no other disjoint paths of that number cost less, whoever made these.
pub fn what_is_accepted_is_least()
    ensures { AcceptedIsLeast }
{}
