ghost use Rattle.std.specs.Prelude.{◌≡◌, IfOk};

use crate::outcome::Outcome;
use fk_base::{NoMemory, Numbers};

/// What a table keeps of a session.
#[derive(Drop)]
pub struct SessionRecord {
    /// The number of the last settled request.
    pub settled: u64,
    /// What became of that request.
    pub outcome: Outcome,
    /// The session's last committed transaction.
    pub last: u64,
    pub closed: bool,
    /// Its committed transactions that aren't done yet.
    pub pending: Numbers,
    /// The number of the last noted ping.
    pub ping: u64,
    /// When that ping was noted.
    pub ping_at: u64,
    /// The greatest ping that was answered.
    pub pong: u64,
}

impl SessionRecord {
    pub fn copy(&self) -> Result<SessionRecord, NoMemory>
        ensures { IfOk result (λ r. r ≡ self.now) }
    {
        Ok(SessionRecord {
            settled: self.settled,
            outcome: self.outcome.copy()?,
            last: self.last,
            closed: self.closed,
            pending: self.pending.copy()?,
            ping: self.ping,
            ping_at: self.ping_at,
            pong: self.pong,
        })
    }
}
