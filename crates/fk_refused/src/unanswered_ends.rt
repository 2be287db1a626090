//! Ends at which not all is answered.

ghost use Rattle.fk_refused.specs.Unanswered.{CommandWithoutItsLine, FunctionInFlight, MessageIsLeft, NoteIsLeft, OtherClientIsAnswered, OtherCommandIsAnswered, PingIsOwed, PushIsLeft, RequestIsLeft, SecondClientWithoutItsLine, SecondCommandWithoutItsLine};

/// A command has no line.
#[tactic(auto, using(crate::proofs::Unanswered::command_without_its_line))]
pub fn command_without_its_line()
    ensures { CommandWithoutItsLine }
{}

/// The second command of a client has no line.
#[tactic(auto, using(crate::proofs::Unanswered::second_command_without_its_line))]
pub fn second_command_without_its_line()
    ensures { SecondCommandWithoutItsLine }
{}

/// The command of the second client has no line.
#[tactic(auto, using(crate::proofs::Unanswered::second_client_without_its_line))]
pub fn second_client_without_its_line()
    ensures { SecondClientWithoutItsLine }
{}

/// A line is of another command.
#[tactic(auto, using(crate::proofs::Unanswered::other_command_is_answered))]
pub fn other_command_is_answered()
    ensures { OtherCommandIsAnswered }
{}

/// A line is of another client.
#[tactic(auto, using(crate::proofs::Unanswered::other_client_is_answered))]
pub fn other_client_is_answered()
    ensures { OtherClientIsAnswered }
{}

/// A function is in flight.
#[tactic(auto, using(crate::proofs::Unanswered::function_in_flight))]
pub fn function_in_flight()
    ensures { FunctionInFlight }
{}

/// A push is left in the leader lane.
#[tactic(auto, using(crate::proofs::Unanswered::push_is_left))]
pub fn push_is_left()
    ensures { PushIsLeft }
{}

/// A request is left in its session's lane.
#[tactic(auto, using(crate::proofs::Unanswered::request_is_left))]
pub fn request_is_left()
    ensures { RequestIsLeft }
{}

/// A message is left in a client's inbox.
#[tactic(auto, using(crate::proofs::Unanswered::message_is_left))]
pub fn message_is_left()
    ensures { MessageIsLeft }
{}

/// A note is left in the watch lane.
#[tactic(auto, using(crate::proofs::Unanswered::note_is_left))]
pub fn note_is_left()
    ensures { NoteIsLeft }
{}

/// A client owes a ping its answer.
#[tactic(auto, using(crate::proofs::Unanswered::ping_is_owed))]
pub fn ping_is_owed()
    ensures { PingIsOwed }
{}
