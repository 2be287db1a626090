ghost use Rattle.fk_law_held.specs.Matching.{HeldByLinesIsHeld};

/// A law: the watches that a client holds by its lines are those that it holds, each with its path,
/// its kind and the number of the read that set it.
pub fn held_by_lines_is_held()
    ensures { HeldByLinesIsHeld }
{}
