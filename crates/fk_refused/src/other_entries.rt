//! Entries that do not follow those before them.

ghost use Rattle.fk_refused.specs.Rules.{BeatOfNoClient, DeliveryToNoClient, FailureOfNoClient, OtherLines, OtherOperation, TurnOfClientZero, TurnOfNoClient};

/// An event makes another operation than the rules say.
#[tactic(auto, using(crate::proofs::Rules::other_operation))]
pub fn other_operation()
    ensures { OtherOperation }
{}

/// An event prints a line that the rules do not give.
#[tactic(auto, using(crate::proofs::Rules::other_lines))]
pub fn other_lines()
    ensures { OtherLines }
{}

/// A client that there is not has a turn.
#[tactic(auto, using(crate::proofs::Rules::turn_of_no_client))]
pub fn turn_of_no_client()
    ensures { TurnOfNoClient }
{}

/// Client 0 has a turn.
#[tactic(auto, using(crate::proofs::Rules::turn_of_client_zero))]
pub fn turn_of_client_zero()
    ensures { TurnOfClientZero }
{}

/// A delivery is to a client that there is not.
#[tactic(auto, using(crate::proofs::Rules::delivery_to_no_client))]
pub fn delivery_to_no_client()
    ensures { DeliveryToNoClient }
{}

/// A heartbeat is of a client that there is not.
#[tactic(auto, using(crate::proofs::Rules::beat_of_no_client))]
pub fn beat_of_no_client()
    ensures { BeatOfNoClient }
{}

/// A client that there is not fails.
#[tactic(auto, using(crate::proofs::Rules::failure_of_no_client))]
pub fn failure_of_no_client()
    ensures { FailureOfNoClient }
{}
