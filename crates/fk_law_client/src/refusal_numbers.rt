ghost use Rattle.fk_law_client.specs.Refused.{MarkWasPushed, RefusalHoldsInLongerHistories, RefusalNumberWasPushed};

/// A law: the mark is at most the number of the last push.
pub fn mark_was_pushed()
    ensures { MarkWasPushed }
{}

/// A law: the number of a refusal is at most that of the last push, so the refusal holds at its
/// number in every longer history.
pub fn refusal_stays_at_its_number()
    ensures number { RefusalNumberWasPushed }
    ensures stays { RefusalHoldsInLongerHistories }
{}
