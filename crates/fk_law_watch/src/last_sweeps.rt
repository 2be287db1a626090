ghost use Rattle.fk_law_watch.specs.Sweeps.{LastSweepOfAPath, SweepsRise, SweptOfIsTheGreatest, TouchesNeverChange};

/// A law: the touches of a committed push never change.
pub fn touches_never_change()
    ensures { TouchesNeverChange }
{}

/// A law: a push that is swept is committed, and beyond each one that was swept before.
pub fn sweeps_rise()
    ensures { SweepsRise }
{}

/// A law: the number that was swept last is the greatest sweep.
pub fn swept_of_is_the_greatest()
    ensures { SweptOfIsTheGreatest }
{}

/// A law: the last sweep of a path is the last sweep of a push that touches it.
pub fn last_sweep_of_a_path()
    ensures { LastSweepOfAPath }
{}
