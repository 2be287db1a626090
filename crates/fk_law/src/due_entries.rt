ghost use Rattle.fk_law.specs.Due.{EveryEntryIsDue};

/// A law: each entry of a history is due: its operation line says what held of the entries before
/// it.
pub fn every_entry_is_due()
    ensures { EveryEntryIsDue }
{}
