ghost use Rattle.std.specs.Ordering.{nat_cmp};
ghost use Rattle.fk_base.specs.Path.{name_cmp, path_cmp};
ghost use Rattle.fk_law_tree.specs.Lists.{AreTheirMembers, InPathOrderRises};

/// A law: two rising lists with the same members are the same, of names, of paths and of numbers.
pub fn rising_lists_are_their_members()
    ensures names { AreTheirMembers name_cmp }
    ensures paths { AreTheirMembers path_cmp }
    ensures numbers { AreTheirMembers nat_cmp }
{}

/// A law: paths in path order rise, and they are the paths that were given.
pub fn in_path_order_rises()
    ensures { InPathOrderRises }
{}
