//! Evictions without their cause.

ghost use Rattle.fk_refused.specs.Evictions.{EvictedByAnotherBeat, EvictedInTime, ExpiredByACreate, ExpiredByAnotherSession, ExpiredByItsOwnClose, ExpiredWithoutALine, FoundLateAfterwards, LateByAnotherFunction, OtherCloseWasSent};

/// A session is evicted that was not found late.
#[tactic(auto, using(crate::proofs::Evictions::evicted_in_time))]
pub fn evicted_in_time()
    ensures { EvictedInTime }
{}

/// A session is evicted by a heartbeat where another one found it late.
#[tactic(auto, using(crate::proofs::Evictions::late_by_another_function))]
pub fn late_by_another_function()
    ensures { LateByAnotherFunction }
{}

/// A session is evicted before it was found late.
#[tactic(auto, using(crate::proofs::Evictions::found_late_afterwards))]
pub fn found_late_afterwards()
    ensures { FoundLateAfterwards }
{}

/// A session is evicted by the heartbeat of another one.
#[tactic(auto, using(crate::proofs::Evictions::evicted_by_another_beat))]
pub fn evicted_by_another_beat()
    ensures { EvictedByAnotherBeat }
{}

/// A session is evicted by a close that its heartbeat did not send.
#[tactic(auto, using(crate::proofs::Evictions::other_close_was_sent))]
pub fn other_close_was_sent()
    ensures { OtherCloseWasSent }
{}

/// A session expires with a transaction that has no line.
#[tactic(auto, using(crate::proofs::Evictions::expired_without_a_line))]
pub fn expired_without_a_line()
    ensures { ExpiredWithoutALine }
{}

/// A session expires with a transaction that is no close.
#[tactic(auto, using(crate::proofs::Evictions::expired_by_a_create))]
pub fn expired_by_a_create()
    ensures { ExpiredByACreate }
{}

/// A session expires with a close of its own client.
#[tactic(auto, using(crate::proofs::Evictions::expired_by_its_own_close))]
pub fn expired_by_its_own_close()
    ensures { ExpiredByItsOwnClose }
{}

/// A session expires with the close of another one.
#[tactic(auto, using(crate::proofs::Evictions::expired_by_another_session))]
pub fn expired_by_another_session()
    ensures { ExpiredByAnotherSession }
{}
