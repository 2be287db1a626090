ghost use Rattle.fk_law.specs.Refusing.{ClosedAtItsNumber, RefusalHoldsAtItsNumber, RefusalHoldsForEver};

/// A law: where a request is refused, its check on what the commits up to the refusal's number
/// leave gives the code and the place; and where its session was closed, it is closed at that
/// number. It stays so where the refusal's number is at most that of the last push.
pub fn refusal_holds_at_its_number()
    ensures closed { ClosedAtItsNumber }
    ensures holds { RefusalHoldsAtItsNumber }
    ensures stays { RefusalHoldsForEver }
{}
