ghost use Rattle.fk_agree.specs.Stored.{NewStoreStands, PublicationIsWritten, PutIsWritten, StoreStays};

/// A law: a new user storage is what the rules say of no history, and a line that neither puts nor
/// publishes leaves the storage.
pub fn storage_starts_and_stays()
    ensures new { NewStoreStands }
    ensures stays { StoreStays }
{}

/// A law: a leader's put makes of a record what the commits up to its push leave there, and a
/// publication sets the mark and the epoch.
pub fn put_is_written()
    ensures put { PutIsWritten }
    ensures published { PublicationIsWritten }
{}
