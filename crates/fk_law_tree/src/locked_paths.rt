ghost use Rattle.fk_law_tree.specs.Locking.{EditsAreLocked, FitsByItsEdits, GoneIsOwned, LocksReadLocked, ReadsAreEdited, ReadsAreLocked};

/// A law: a request that fits edits only what is locked for it.
pub fn edits_are_locked()
    ensures { EditsAreLocked }
{}

/// A law: a request reads only what is locked for it, but for the final path under a parent that has
/// an owner.
pub fn reads_are_locked()
    ensures { ReadsAreLocked }
{}

/// A law: a request that fits edits what it reads.
pub fn reads_are_edited()
    ensures { ReadsAreEdited }
{}

/// A law: what fits stays so where no path that it edits changes.
pub fn fits_by_its_edits()
    ensures { FitsByItsEdits }
{}

/// A law: the lock paths of a request are decided by what is locked.
pub fn locks_read_what_is_locked()
    ensures { LocksReadLocked }
{}

/// A law: what a close removes is among the owned paths, where these list all.
pub fn gone_is_owned()
    ensures { GoneIsOwned }
{}
