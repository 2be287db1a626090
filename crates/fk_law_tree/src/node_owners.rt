ghost use Rattle.fk_law_tree.specs.Fitting.{CloseLeavesNone};
ghost use Rattle.fk_law_tree.specs.Owners.{KeepsForeignOwners, OwnedAreTheOwners};

/// A law: an applied request gives no node to another session.
pub fn edits_keep_foreign_owners()
    ensures { KeepsForeignOwners }
{}

/// A law: the owned paths of a tree rise, and they are those whose node has that owner.
pub fn owned_are_the_owners()
    ensures { OwnedAreTheOwners }
{}

/// A law: after a close its session owns no node.
pub fn close_leaves_none()
    ensures { CloseLeavesNone }
{}
