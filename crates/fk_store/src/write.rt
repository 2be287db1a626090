ghost use Rattle.std.specs.Prelude.{◌≡◌, IfOk};

use crate::outcome::Outcome;
use fk_base::{NoMemory, Path};
use fk_tree::Edit;

/// What a transaction changes.
#[derive(Drop)]
pub enum Write {
    /// The path's lock is granted to this invocation; a path without a record gets one.
    Grant {
        path: Path,
        inv: u64,
        moment: u64,
    },
    /// The path's lock is no longer held.
    Release(Path),
    /// The node is edited, and the record's last transaction is `tx`.
    Change {
        change: Edit,
        tx: u64,
        moment: u64,
    },
    /// The session's settled number is `k`, with this outcome.
    Settle {
        session: u32,
        k: u64,
        outcome: Outcome,
    },
    CloseSession(u32),
    /// The transaction is pending, and the session's last.
    AddPending {
        session: u32,
        tx: u64,
    },
    /// The transaction is no longer pending.
    PopPending {
        session: u32,
        tx: u64,
    },
    Done(u64),
    /// Ping `n` of the session was noted at this moment.
    Ping {
        session: u32,
        n: u64,
        moment: u64,
    },
    /// Ping `n` of the session was answered.
    Pong {
        session: u32,
        n: u64,
    },
}

impl Write {
    pub fn copy(&self) -> Result<Write, NoMemory>
        ensures { IfOk result (λ w. w ≡ self.now) }
    {
        match self {
            Write::Grant { path, inv, moment } => Ok(Write::Grant {
                path: path.copy()?,
                inv: *inv,
                moment: *moment,
            }),
            Write::Release(path) => Ok(Write::Release(path.copy()?)),
            Write::Change { change, tx, moment } => Ok(Write::Change {
                change: change.copy()?,
                tx: *tx,
                moment: *moment,
            }),
            Write::Settle {
                session,
                k,
                outcome,
            } => Ok(Write::Settle {
                session: *session,
                k: *k,
                outcome: outcome.copy()?,
            }),
            Write::CloseSession(session) => Ok(Write::CloseSession(*session)),
            Write::AddPending { session, tx } => Ok(Write::AddPending {
                session: *session,
                tx: *tx,
            }),
            Write::PopPending { session, tx } => Ok(Write::PopPending {
                session: *session,
                tx: *tx,
            }),
            Write::Done(n) => Ok(Write::Done(*n)),
            Write::Ping { session, n, moment } => Ok(Write::Ping {
                session: *session,
                n: *n,
                moment: *moment,
            }),
            Write::Pong { session, n } => Ok(Write::Pong {
                session: *session,
                n: *n,
            }),
        }
    }
}
