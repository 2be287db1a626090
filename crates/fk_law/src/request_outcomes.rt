ghost use Rattle.fk_law.specs.Settled.{SettledHaveAnOutcome, OutcomeIsOfASettled, OutcomeNeverChanges, AppliedIsCommitted, OneCommitForEachRequest};

/// A law: a settled request has an outcome.
pub fn settled_have_an_outcome()
    ensures { SettledHaveAnOutcome }
{}

/// A law: a request that has an outcome is settled.
pub fn outcome_is_of_a_settled()
    ensures { OutcomeIsOfASettled }
{}

/// A law: an outcome never changes.
pub fn outcome_never_changes()
    ensures { OutcomeNeverChanges }
{}

/// A law: where the outcome of a request is a commit, that push is of the request and was
/// committed.
pub fn applied_is_committed()
    ensures { AppliedIsCommitted }
{}

/// A law: each request is one transaction at most.
pub fn one_commit_for_each_request()
    ensures { OneCommitForEachRequest }
{}
