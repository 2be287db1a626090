ghost use Rattle.fk_law_tree.specs.Touching.{TouchPaths};

/// A law: the paths that an applied request touches are those that it edits.
pub fn touch_paths()
    ensures { TouchPaths }
{}
