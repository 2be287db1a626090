ghost use Rattle.fk_law_tree.specs.Following.{AppliedByPath, AppliedIsAfter, TreesAreViews, ViewsAreTrees};
ghost use Rattle.fk_law_tree.specs.WellFormed.{KeepsWellFormed, LockedIsEnough, OwnersHaveNoChild, UnlockedIsMissing};

/// A law: an applied request does at each path what its edits of that path do.
pub fn apply_by_path()
    ensures path { AppliedByPath }
    ensures whole { AppliedIsAfter }
{}

/// A law: an applied request keeps a tree well formed.
pub fn apply_keeps_well_formed()
    ensures { KeepsWellFormed }
{}

/// A law: a node with an owner has no child.
pub fn owners_have_no_child()
    ensures { OwnersHaveNoChild }
{}

/// A law: what a request reads that isn't locked for it isn't there.
pub fn unlocked_is_missing()
    ensures { UnlockedIsMissing }
{}

/// A law: what is locked for a request decides its check and what is filled.
pub fn locked_is_enough()
    ensures { LockedIsEnough }
{}

/// A law: the tree after applied requests is well formed and shows what their edits show, where each
/// was filled on the tree before it, and where each fits what was shown before it.
pub fn views_are_trees()
    ensures filled { TreesAreViews }
    ensures fitting { ViewsAreTrees }
{}
