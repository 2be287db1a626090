ghost use Rattle.fk_law.specs.Pushes.{PushesAreNumbered, EachNumberIsAPush, PushNeverChanges, PushIsOfARequest, CommitterCommitsAPush, OnePushForEachFunction};

/// A law: a push has a number from 1 to the count of pushes.
pub fn pushes_are_numbered()
    ensures { PushesAreNumbered }
{}

/// A law: each number from 1 to the count of pushes is a push.
pub fn each_number_is_a_push()
    ensures { EachNumberIsAPush }
{}

/// A law: a push never changes.
pub fn push_never_changes()
    ensures { PushNeverChanges }
{}

/// A law: the function of a push was started for a request.
pub fn push_is_of_a_request()
    ensures { PushIsOfARequest }
{}

/// A law: who is about to commit a push commits it for its function and its request.
pub fn committer_commits_a_push()
    ensures { CommitterCommitsAPush }
{}

/// A law: two pushes have two functions.
pub fn one_push_for_each_function()
    ensures { OnePushForEachFunction }
{}
