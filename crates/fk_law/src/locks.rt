ghost use Rattle.fk_law.specs.Locking.{LockNamesAGrantedPath, LocksAreFollowers, ReleasedIsSettled, AtWorkIsUnreleased, PushReleasesAtItsCommit, OvertakenOnlyAfterExpiry, LossIsAfterExpiry};

/// A law: a path's last grant is of a path that its function was granted, at the function's own
/// moment.
pub fn lock_names_a_granted_path()
    ensures { LockNamesAGrantedPath }
{}

/// A law: a function that was granted a path works on a request.
pub fn locks_are_followers()
    ensures { LocksAreFollowers }
{}

/// A law: a function that released its locks has its request settled.
pub fn released_is_settled()
    ensures { ReleasedIsSettled }
{}

/// A law: a follower that hasn't pushed or refused has released nothing.
pub fn at_work_is_unreleased()
    ensures { AtWorkIsUnreleased }
{}

/// A law: a function that has pushed released its locks exactly where its push was committed.
pub fn push_releases_at_its_commit()
    ensures { PushReleasesAtItsCommit }
{}

/// A law: where a function's request is the next to settle and another was granted one of its paths
/// last, that was more than the lock time after its own grant.
pub fn overtaken_only_after_expiry()
    ensures { OvertakenOnlyAfterExpiry }
{}

/// A law: a lock that a follower lost was found with another function, granted more than the lock
/// time after its own grant.
pub fn loss_is_after_expiry()
    ensures { LossIsAfterExpiry }
{}
