//! Replies that do not fit the commands or the tree.

ghost use Rattle.fk_refused.specs.Replies.{AnswerBeyondTheLines, ExpiredBeyondTheLines, LostWithALine, MissingThatIsThere, OtherAnswer, OtherNumber, OtherVerb, OtherVersion, PlainWithALine, ReadAnsweredAsAWrite, RefusedWithALine, RepeatedReply, RepliesOutOfOrder, ReplyBeforeItsLine, ReplyByAnotherLine, ReplyToNoCommand};

/// A reply comes twice.
#[tactic(auto, using(crate::proofs::Replies::repeated_reply))]
pub fn repeated_reply()
    ensures { RepeatedReply }
{}

/// The reply to the second command comes before the reply to the first.
#[tactic(auto, using(crate::proofs::Replies::replies_out_of_order))]
pub fn replies_out_of_order()
    ensures { RepliesOutOfOrder }
{}

/// A reply is to a command that there is not.
#[tactic(auto, using(crate::proofs::Replies::reply_to_no_command))]
pub fn reply_to_no_command()
    ensures { ReplyToNoCommand }
{}

/// A reply is by another verb than its command.
#[tactic(auto, using(crate::proofs::Replies::other_verb))]
pub fn other_verb()
    ensures { OtherVerb }
{}

/// The reply to a write shows another number than its transaction line.
#[tactic(auto, using(crate::proofs::Replies::other_number))]
pub fn other_number()
    ensures { OtherNumber }
{}

/// The reply to a set shows a version that the tree does not give.
#[tactic(auto, using(crate::proofs::Replies::other_version))]
pub fn other_version()
    ensures { OtherVersion }
{}

/// A write is answered by the transaction line of another client.
#[tactic(auto, using(crate::proofs::Replies::reply_by_another_line))]
pub fn reply_by_another_line()
    ensures { ReplyByAnotherLine }
{}

/// The reply to a write comes before its transaction line.
#[tactic(auto, using(crate::proofs::Replies::reply_before_its_line))]
pub fn reply_before_its_line()
    ensures { ReplyBeforeItsLine }
{}

/// A write is refused that has its transaction line.
#[tactic(auto, using(crate::proofs::Replies::refused_with_a_line))]
pub fn refused_with_a_line()
    ensures { RefusedWithALine }
{}

/// A write is answered with a code alone that has its transaction line.
#[tactic(auto, using(crate::proofs::Replies::plain_with_a_line))]
pub fn plain_with_a_line()
    ensures { PlainWithALine }
{}

/// A write is answered with a lost lock that has its transaction line.
#[tactic(auto, using(crate::proofs::Replies::lost_with_a_line))]
pub fn lost_with_a_line()
    ensures { LostWithALine }
{}

/// A read shows data that the tree of its number does not have.
#[tactic(auto, using(crate::proofs::Replies::other_answer))]
pub fn other_answer()
    ensures { OtherAnswer }
{}

/// A read finds no node where the tree of its number has one.
#[tactic(auto, using(crate::proofs::Replies::missing_that_is_there))]
pub fn missing_that_is_there()
    ensures { MissingThatIsThere }
{}

/// A read is answered as a delete is.
#[tactic(auto, using(crate::proofs::Replies::read_answered_as_a_write))]
pub fn read_answered_as_a_write()
    ensures { ReadAnsweredAsAWrite }
{}

/// A read shows a number that no transaction line before it has.
#[tactic(auto, using(crate::proofs::Replies::answer_beyond_the_lines))]
pub fn answer_beyond_the_lines()
    ensures { AnswerBeyondTheLines }
{}

/// A read is refused for its closed session at a number that no transaction line before it has.
#[tactic(auto, using(crate::proofs::Replies::expired_beyond_the_lines))]
pub fn expired_beyond_the_lines()
    ensures { ExpiredBeyondTheLines }
{}
