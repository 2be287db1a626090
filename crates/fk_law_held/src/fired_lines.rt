ghost use Rattle.fk_law_held.specs.Firings.{FiredByLinesHasFired, FiringStandsInTheLines, NoReadPassesAHeldWatch};

/// A law: what a client holds by its lines, and has fired by the transaction lines, has fired there
/// or below; and a watch that fired at a push up to the mark has fired so by the transaction lines.
pub fn fired_by_lines_has_fired()
    ensures fired { FiredByLinesHasFired }
    ensures stands { FiringStandsInTheLines }
{}

/// A law: at each answer to a read and each ok reply to a write, its client holds no watch that has
/// fired at its number or below.
pub fn no_read_passes_a_held_watch()
    ensures { NoReadPassesAHeldWatch }
{}
