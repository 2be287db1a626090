//! The messages of the four kinds of queue: a session's, the leader's, the watches' and a client's inbox.

ghost use Rattle.std.specs.Prelude.{◌≡◌, IfOk};

use crate::fired::{Fired, FiredList};
use fk_base::{Code, NoMemory, Path, Paths};
use fk_tree::{Mades, Request};

/// A request on its way from a client to a follower of its session.
#[derive(Drop)]
pub struct Sent {
    pub request: Request,
    /// The greatest transaction that the client has seen.
    pub seen: u64,
}

/// A request that a follower has checked and locked, on its way to the leader.
#[derive(Drop)]
pub struct Pushed {
    pub session: u32,
    /// The request's number in its session, from 1.
    pub k: u64,
    /// The follower's invocation.
    pub inv: u64,
    /// When its locks were taken, in milliseconds.
    pub moment: u64,
    pub request: Request,
    /// The final path of a create, else the root.
    pub name: Path,
    /// The new version of a set, else 0.
    pub version: u32,
    /// The paths that a close removes, in path order, else none.
    pub gone: Paths,
    /// One entry for each part of a multi, else none.
    pub made: Mades,
    /// The paths that are locked.
    pub paths: Paths,
}

/// The watches that a transaction fired, on their way to the teller.
#[derive(Drop)]
pub struct Note {
    pub tx: u64,
    pub fired: FiredList,
}

/// What a client is told: how its request `k` ended, that a watch of its fired, or that it is asked
/// whether it lives.
#[derive(Drop)]
pub enum Tell {
    /// The request was committed as transaction `tx`.
    Done {
        k: u64,
        tx: u64,
        /// The final path of a create, else the root.
        name: Path,
        /// The new version of a set, else 0.
        version: u32,
        /// One entry for each part of a multi, else none.
        made: Mades,
    },
    /// A heartbeat's close was committed as transaction `tx`.
    Evicted {
        k: u64,
        tx: u64,
    },
    /// The request was refused.
    Refused {
        k: u64,
        code: Code,
        /// The transaction in whose tree the refusal holds.
        at: u64,
        /// Of a multi the part that is refused, from 1, else 0.
        place: u32,
    },
    /// The request was lost: on `path`, where its follower locked at the moment `own`, the lock of
    /// the function `found` was met, taken at `moment`.
    Lost {
        k: u64,
        path: Path,
        own: u64,
        found: u64,
        moment: u64,
    },
    /// A watch fired at transaction `tx`.
    Watch {
        tx: u64,
        fired: Fired,
    },
    /// The heartbeat's question, by its number.
    Ping(u64),
}

impl Sent {
    pub fn copy(&self) -> Result<Sent, NoMemory>
        ensures { IfOk result (λ m. m ≡ self.now) }
    {
        Ok(Sent {
            request: self.request.copy()?,
            seen: self.seen,
        })
    }
}

impl Pushed {
    pub fn copy(&self) -> Result<Pushed, NoMemory>
        ensures { IfOk result (λ m. m ≡ self.now) }
    {
        Ok(Pushed {
            session: self.session,
            k: self.k,
            inv: self.inv,
            moment: self.moment,
            request: self.request.copy()?,
            name: self.name.copy()?,
            version: self.version,
            gone: self.gone.copy()?,
            made: self.made.copy()?,
            paths: self.paths.copy()?,
        })
    }
}

impl Note {
    pub fn copy(&self) -> Result<Note, NoMemory>
        ensures { IfOk result (λ m. m ≡ self.now) }
    {
        Ok(Note {
            tx: self.tx,
            fired: self.fired.copy()?,
        })
    }
}

impl Tell {
    pub fn copy(&self) -> Result<Tell, NoMemory>
        ensures { IfOk result (λ m. m ≡ self.now) }
    {
        match self {
            Tell::Done {
                k,
                tx,
                name,
                version,
                made,
            } => Ok(Tell::Done {
                k: *k,
                tx: *tx,
                name: name.copy()?,
                version: *version,
                made: made.copy()?,
            }),
            Tell::Evicted { k, tx } => Ok(Tell::Evicted { k: *k, tx: *tx }),
            Tell::Refused { k, code, at, place } => Ok(Tell::Refused {
                k: *k,
                code: *code,
                at: *at,
                place: *place,
            }),
            Tell::Lost {
                k,
                path,
                own,
                found,
                moment,
            } => Ok(Tell::Lost {
                k: *k,
                path: path.copy()?,
                own: *own,
                found: *found,
                moment: *moment,
            }),
            Tell::Watch { tx, fired } => Ok(Tell::Watch {
                tx: *tx,
                fired: fired.copy()?,
            }),
            Tell::Ping(n) => Ok(Tell::Ping(*n)),
        }
    }
}
