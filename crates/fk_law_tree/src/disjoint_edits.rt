ghost use Rattle.fk_law_tree.specs.Disjoint.{ApartCommute, FitsAfterOthers};

/// A law: a request that fits still does after one of another session that edits none of its paths.
pub fn fits_after_others()
    ensures { FitsAfterOthers }
{}

/// A law: two requests that edit no path in common leave the same in either order.
pub fn apart_commute()
    ensures { ApartCommute }
{}
