ghost use Rattle.std.specs.Prelude.{◌≡◌, Some, None, IfOk};
ghost use Rattle.fk_follow.specs.Standing.{kept_of, outcome_of};

use fk_base::{Code, NoMemory, Path};
use fk_store::Outcome;

/// What was kept of a request that wasn't committed.
#[derive(Drop)]
pub enum Kept {
    Refused {
        code: Code,
        at: u64,
        place: u32,
    },
    Lost {
        path: Path,
        own: u64,
        found: u64,
        moment: u64,
    },
}

/// The operation before which a follower stands, with what it needs for that.
#[derive(Drop)]
pub enum State {
    Session,
    Owned,
    Lock(Path),
    Push,
    Refuse {
        code: Code,
        place: u32,
        at: u64,
    },
    /// A request of a closed session is refused.
    Expire {
        at: u64,
    },
    Commit {
        tx: u64,
        /// When it was pushed.
        moment: u64,
    },
    Lost {
        path: Path,
        own: u64,
        found: u64,
        moment: u64,
    },
    Reply(Kept),
    Ack,
    Ended,
}

/// What was kept of a request, where it wasn't committed.
pub fn kept_of(outcome: &Outcome) -> Result<Option<Kept>, NoMemory>
    ensures { IfOk result (λ k. k ≡ kept_of outcome.now) }
{
    match outcome {
        Outcome::Nothing => Ok(None),
        Outcome::Applied(_) => Ok(None),
        Outcome::Refused { code, at, place } => Ok(Some(Kept::Refused {
            code: *code,
            at: *at,
            place: *place,
        })),
        Outcome::Lost {
            path,
            own,
            found,
            moment,
        } => Ok(Some(Kept::Lost {
            path: path.copy()?,
            own: *own,
            found: *found,
            moment: *moment,
        })),
    }
}

impl Kept {
    pub fn copy(&self) -> Result<Kept, NoMemory>
        ensures { IfOk result (λ k. k ≡ self.now) }
    {
        match self {
            Kept::Refused { code, at, place } => Ok(Kept::Refused {
                code: *code,
                at: *at,
                place: *place,
            }),
            Kept::Lost {
                path,
                own,
                found,
                moment,
            } => Ok(Kept::Lost {
                path: path.copy()?,
                own: *own,
                found: *found,
                moment: *moment,
            }),
        }
    }

    pub fn outcome(&self) -> Result<Outcome, NoMemory>
        ensures { IfOk result (λ o. o ≡ outcome_of self.now) }
    {
        match self {
            Kept::Refused { code, at, place } => Ok(Outcome::Refused {
                code: *code,
                at: *at,
                place: *place,
            }),
            Kept::Lost {
                path,
                own,
                found,
                moment,
            } => Ok(Outcome::Lost {
                path: path.copy()?,
                own: *own,
                found: *found,
                moment: *moment,
            }),
        }
    }
}

impl State {
    pub fn copy(&self) -> Result<State, NoMemory>
        ensures { IfOk result (λ s. s ≡ self.now) }
    {
        match self {
            State::Session => Ok(State::Session),
            State::Owned => Ok(State::Owned),
            State::Lock(path) => Ok(State::Lock(path.copy()?)),
            State::Push => Ok(State::Push),
            State::Refuse { code, place, at } => Ok(State::Refuse {
                code: *code,
                place: *place,
                at: *at,
            }),
            State::Expire { at } => Ok(State::Expire { at: *at }),
            State::Commit { tx, moment } => Ok(State::Commit {
                tx: *tx,
                moment: *moment,
            }),
            State::Lost {
                path,
                own,
                found,
                moment,
            } => Ok(State::Lost {
                path: path.copy()?,
                own: *own,
                found: *found,
                moment: *moment,
            }),
            State::Reply(kept) => Ok(State::Reply(kept.copy()?)),
            State::Ack => Ok(State::Ack),
            State::Ended => Ok(State::Ended),
        }
    }
}
