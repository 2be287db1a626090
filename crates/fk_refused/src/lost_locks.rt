//! Locks that did not pass on.

ghost use Rattle.fk_refused.specs.Lost.{LostAtTheLockTime, LostOfAnotherClient, LostOfAnotherPath, LostToAnotherFunction, LostToAnotherMoment, LostUnsettled, LostWithoutAGrant, LostWithoutALaterGrant, LostWithoutItsMiss, MissOfAnotherFunction, MissOfAnotherHolder, MissOfAnotherMoment, MissOfAnotherPath, SettledByAnotherFunction};

/// A lock is lost when exactly the lock time has passed.
#[tactic(auto, using(crate::proofs::Lost::lost_at_the_lock_time))]
pub fn lost_at_the_lock_time()
    ensures { LostAtTheLockTime }
{}

/// A lock is lost that its function did not find to have passed on.
#[tactic(auto, using(crate::proofs::Lost::lost_without_its_miss))]
pub fn lost_without_its_miss()
    ensures { LostWithoutItsMiss }
{}

/// A lock is lost to one function where its own found another.
#[tactic(auto, using(crate::proofs::Lost::miss_of_another_holder))]
pub fn miss_of_another_holder()
    ensures { MissOfAnotherHolder }
{}

/// A lock is lost to a grant at one moment where its function found another.
#[tactic(auto, using(crate::proofs::Lost::miss_of_another_moment))]
pub fn miss_of_another_moment()
    ensures { MissOfAnotherMoment }
{}

/// A lock is lost of one path where its function missed another.
#[tactic(auto, using(crate::proofs::Lost::miss_of_another_path))]
pub fn miss_of_another_path()
    ensures { MissOfAnotherPath }
{}

/// A lock is lost where another function missed it.
#[tactic(auto, using(crate::proofs::Lost::miss_of_another_function))]
pub fn miss_of_another_function()
    ensures { MissOfAnotherFunction }
{}

/// A lock is lost to a grant at another moment.
#[tactic(auto, using(crate::proofs::Lost::lost_to_another_moment))]
pub fn lost_to_another_moment()
    ensures { LostToAnotherMoment }
{}

/// A lock is lost to a function that was not granted it.
#[tactic(auto, using(crate::proofs::Lost::lost_to_another_function))]
pub fn lost_to_another_function()
    ensures { LostToAnotherFunction }
{}

/// A lock is lost of a path that was not granted again.
#[tactic(auto, using(crate::proofs::Lost::lost_of_another_path))]
pub fn lost_of_another_path()
    ensures { LostOfAnotherPath }
{}

/// A lock is lost that no function was granted later.
#[tactic(auto, using(crate::proofs::Lost::lost_without_a_later_grant))]
pub fn lost_without_a_later_grant()
    ensures { LostWithoutALaterGrant }
{}

/// A lock is lost that its function was not granted.
#[tactic(auto, using(crate::proofs::Lost::lost_without_a_grant))]
pub fn lost_without_a_grant()
    ensures { LostWithoutAGrant }
{}

/// A lock is lost where the request was not settled so.
#[tactic(auto, using(crate::proofs::Lost::lost_unsettled))]
pub fn lost_unsettled()
    ensures { LostUnsettled }
{}

/// A lock is lost where another function settled its request so.
#[tactic(auto, using(crate::proofs::Lost::settled_by_another_function))]
pub fn settled_by_another_function()
    ensures { SettledByAnotherFunction }
{}

/// A lock is lost of a client whose function lost none.
#[tactic(auto, using(crate::proofs::Lost::lost_of_another_client))]
pub fn lost_of_another_client()
    ensures { LostOfAnotherClient }
{}
