ghost use Rattle.fk_law_reply.specs.Replying.{LinesAreExplained, RefusalsHaveTheirCause, RepliesFitTheTree};

/// A law: why each reply and each expiry shows what it shows.
pub fn lines_are_explained()
    ensures { LinesAreExplained }
{}

/// A law: each client's replies are in the order of its commands, one for each at most, and each
/// fits the tree.
pub fn replies_fit()
    ensures { RepliesFitTheTree }
{}

/// A law: BADARGUMENTS comes exactly where the command is unfit; every other refusal, and every
/// expiry, has its cause.
pub fn refusals_have_their_cause()
    ensures { RefusalsHaveTheirCause }
{}
