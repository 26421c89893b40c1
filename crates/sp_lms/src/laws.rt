// What a seed signs is valid, whoever wrote the signer.
ghost use Rattle.sp_lms.specs.Laws.{SeedSignaturesAreValid};

/// A law: every leaf's signature of every message is valid under the seed's public key.
pub fn what_a_seed_signs_is_valid()
    ensures { SeedSignaturesAreValid }
{}
