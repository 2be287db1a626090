ghost use Rattle.fk_user.specs.StoreLaws.{PublicationsAreDoneOnce, PublicationsNeverFall, PutsAreDoneOnce, PutsNeverFall};

/// A law: no call lowers a stamp or the mark.
pub fn stamps_never_fall()
    ensures puts { PutsNeverFall }
    ensures publications { PublicationsNeverFall }
{}

/// A law: what was put or published is there when it is tried again, and isn't done twice.
pub fn done_once()
    ensures puts { PutsAreDoneOnce }
    ensures publications { PublicationsAreDoneOnce }
{}
