ghost use Rattle.fk_agree.specs.Commits.{CommitIsWritten};
ghost use Rattle.fk_agree.specs.Records.{DropIsWritten, ExpiredIsGrantedNothing, FinishIsWritten, GrantIsWritten, LossIsWritten, NewTableStands, PingIsWritten, PongIsWritten, RecordsStay, RefusalIsWritten};

/// A law: a new table is what the rules say of no history, and a line that changes no record leaves
/// the table.
pub fn table_starts_and_stays()
    ensures new { NewTableStands }
    ensures stays { RecordsStay }
{}

/// A law: where a push commits, the writes that its message asks for leave the table as the rules
/// say of the longer history.
pub fn commit_is_written()
    ensures { CommitIsWritten }
{}

/// A law: so does the write of a granted lock.
pub fn grant_is_written()
    ensures { GrantIsWritten }
{}

/// A law: so do the writes that refuse a request, or settle it as lost; who refuses a request of a
/// closed session was granted nothing.
pub fn refusal_is_written()
    ensures refusal { RefusalIsWritten }
    ensures bare { ExpiredIsGrantedNothing }
    ensures loss { LossIsWritten }
{}

/// A law: so do the writes that finish a push or drop it.
pub fn finish_is_written()
    ensures done { FinishIsWritten }
    ensures drop { DropIsWritten }
{}

/// A law: so do those that note a ping and its answer.
pub fn ping_is_written()
    ensures noted { PingIsWritten }
    ensures answered { PongIsWritten }
{}
