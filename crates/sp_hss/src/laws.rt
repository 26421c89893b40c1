// What holds of everything that a seed signs, whoever wrote the signer.
ghost use Rattle.sp_hss.specs.Laws.{AnUpperLeafSignsOneMessage, NoLeafSignsTwoMessages, SeedSignaturesAreValid, ValidIsDecided};
ghost use Rattle.sp_hss.specs.Laws.{TwoIndexesHaveTwoLeaves, TwoLeavesMakeASignature};

/// A law: the signature of every message at every index is valid under the seed's public key.
pub fn what_a_seed_signs_is_valid()
    ensures { SeedSignaturesAreValid }
{}

/// A law: a signature is what two leaves sign, one of the upper tree and one of a lower tree.
pub fn two_leaves_make_a_signature()
    ensures { TwoLeavesMakeASignature }
{}

/// A law: two different indexes of one seed and height sign their messages with two different leaves, of two lower trees or of one.
pub fn two_indexes_have_two_leaves()
    ensures { TwoIndexesHaveTwoLeaves }
{}

/// A law: upper leaf t signs one and the same message, the key of lower tree t, whatever the index.
pub fn an_upper_leaf_signs_one_message()
    ensures { AnUpperLeafSignsOneMessage }
{}

/// A law: over any list of signatures whose indexes rise no one-time key signs two messages.
///
/// The indexes of a `Signer` rise by one. The law is of one seed at one height: at another height the same one-time keys sign other messages.
pub fn no_leaf_signs_two_messages()
    ensures { NoLeafSignsTwoMessages }
{}

/// A law: what tests the bytes of a signature one after another says yes exactly where the signature is valid.
pub fn a_test_of_bytes_decides_validity()
    ensures { ValidIsDecided }
{}
