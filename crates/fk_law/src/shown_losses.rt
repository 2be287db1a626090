ghost use Rattle.fk_law.specs.Losses.{LossHasItsLines, LostHasItsLines, LoserHasFound, LostHasALoss};

/// A law: what a follower found at its last miss of a lock has its lines: its own grant, the later
/// one after more than the lock time, and the miss.
pub fn loss_has_its_lines()
    ensures { LossHasItsLines }
{}

/// A law: a request that was settled as lost has a follower that lost a lock, found it, and settled
/// it so.
pub fn lost_has_its_lines()
    ensures { LostHasItsLines }
{}

/// A law: a follower that stands before its loss has found one.
pub fn loser_has_found()
    ensures { LoserHasFound }
{}

/// A law: no request is settled as lost without a loss.
pub fn lost_has_a_loss()
    ensures { LostHasALoss }
{}
