// What holds of the crafting signers over a run.
ghost use Rattle.sp_adversary.specs.Laws.{CraftsAreCounted};

/// A law: where the crafting signers are those of a scenario, and so many objects were crafted, the next craft is answered with the object of
/// the run, which is counted, or with what its signer has made where that one is spent. Then, and where there is no memory, they are as before.
pub fn crafting_signers_follow_a_run()
    ensures { CraftsAreCounted }
{}
