// What holds of the bytes of all messages.
ghost use Rattle.sp_msg.specs.Laws.{EncodedIsRead, FrontIsEncoded, NoOtherHasItsBytes, ReadIsEncoded, TailIsRefused, WholeIsRead};

/// A law: what is encoded is read back, whatever follows it, and refused as a whole where a byte follows. What is read
/// is encoded by the bytes that were read, and by no others; and no other message has these bytes.
pub fn a_body_has_one_spelling()
    ensures encoded_is_read { EncodedIsRead }
    ensures whole_is_read { WholeIsRead }
    ensures tail_is_refused { TailIsRefused }
    ensures read_is_encoded { ReadIsEncoded }
    ensures front_is_encoded { FrontIsEncoded }
    ensures no_other_has_its_bytes { NoOtherHasItsBytes }
{}
