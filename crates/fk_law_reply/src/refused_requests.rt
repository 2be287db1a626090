ghost use Rattle.fk_law_reply.specs.RefusedOutcomes.{RefusedBeyondSeen, RefusedHoldsAtItsNumber, RefusedWasRefused};

/// A law: a request whose outcome is a refusal was refused by a follower of it. Its code and its
/// place are the first check that fails on the tree of its number, which is at least what its
/// client had seen.
pub fn refused_requests_hold_at_their_numbers()
    ensures refused { RefusedWasRefused }
    ensures holds { RefusedHoldsAtItsNumber }
    ensures seen { RefusedBeyondSeen }
{}
