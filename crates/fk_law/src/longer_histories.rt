ghost use Rattle.fk_law.specs.Growing.{NumbersNeverFall, CommittedStays, PublishedStays};

/// A law: in a longer history no number is less.
pub fn numbers_never_fall()
    ensures { NumbersNeverFall }
{}

/// A law: what is committed stays committed.
pub fn committed_stays()
    ensures { CommittedStays }
{}

/// A law: what is published stays published.
pub fn published_stays()
    ensures { PublishedStays }
{}
