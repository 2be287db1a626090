ghost use Rattle.fk_law.specs.Seeing.{FollowerDecidesFromItsViews, GrantsAreTheFirstLockPaths, OwnedListIsComplete, RecordsAreOfItsGrants, ViewIsCurrentWhileTheLockIsOwn};

/// A law: a follower's records are of the paths that it was granted, in the order of the grants,
/// and those are the first of its request's lock paths, in their order.
pub fn records_are_of_its_grants()
    ensures records { RecordsAreOfItsGrants }
    ensures locks { GrantsAreTheFirstLockPaths }
{}

/// A law: a follower stands where what it has seen brings it: it locks the next path, and decides
/// by the check of its records where none is left.
pub fn follower_decides_from_its_views()
    ensures { FollowerDecidesFromItsViews }
{}

/// A law: what a follower at work has seen of a path is current for as long as no other function is
/// granted the path.
pub fn view_is_current_while_the_lock_is_own()
    ensures { ViewIsCurrentWhileTheLockIsOwn }
{}

/// A law: a follower that closes has listed each node that its session owns, where its request is
/// the next to settle.
pub fn owned_list_is_complete()
    ensures { OwnedListIsComplete }
{}
