ghost use Rattle.std.specs.Prelude.{◌≡◌, IfOk};

use crate::lock::Lock;
use fk_base::{NoMemory, Path};

/// What a transaction needs.
#[derive(Drop)]
pub enum Cond {
    /// The session's settled number is `at`.
    Settled { session: u32, at: u64 },
    /// The path's lock may be granted at `now`, where locks may pass on after `lock`.
    Free { path: Path, now: u64, lock: u64 },
    /// The path's lock is held by this invocation.
    Holds { path: Path, inv: u64 },
    /// The number done is below this one.
    DoneBelow(u64),
    /// The session's ping is below `n`.
    PingBelow { session: u32, n: u64 },
}

/// What was found where a condition failed.
#[derive(Clone, Copy, Debug, PartialEq, Eq)]
pub enum Found {
    Number(u64),
    Lock(Lock),
}

impl Cond {
    pub fn copy(&self) -> Result<Cond, NoMemory>
        ensures { IfOk result (λ c. c ≡ self.now) }
    {
        match self {
            Cond::Settled { session, at } => Ok(Cond::Settled {
                session: *session,
                at: *at,
            }),
            Cond::Free { path, now, lock } => Ok(Cond::Free {
                path: path.copy()?,
                now: *now,
                lock: *lock,
            }),
            Cond::Holds { path, inv } => Ok(Cond::Holds {
                path: path.copy()?,
                inv: *inv,
            }),
            Cond::DoneBelow(n) => Ok(Cond::DoneBelow(*n)),
            Cond::PingBelow { session, n } => Ok(Cond::PingBelow {
                session: *session,
                n: *n,
            }),
        }
    }
}
