ghost use Rattle.std.specs.Prelude.{◌≡◌, IfOk};

use crate::lists::Parts;
use fk_base::{Bytes, NoMemory, Path};

/// A part of a multi: a create that isn't sequential, a set or a delete.
#[derive(Drop)]
pub enum Part {
    Create {
        path: Path,
        bytes: Bytes,
        eph: bool,
    },
    Set {
        path: Path,
        bytes: Bytes,
        version: i32,
    },
    Delete {
        path: Path,
        version: i32,
    },
}

/// A request of a session that changes the tree. An expected version of -1 fits any.
#[derive(Drop)]
pub enum Request {
    Create {
        path: Path,
        bytes: Bytes,
        /// Whether the name gets a number at its end.
        seq: bool,
        /// Whether the node goes with its session.
        eph: bool,
    },
    Set {
        path: Path,
        bytes: Bytes,
        version: i32,
    },
    Delete {
        path: Path,
        version: i32,
    },
    /// The end of a session; by itself or, for `evict`, by a heartbeat.
    Close {
        evict: bool,
    },
    /// One to sixteen parts that are made together or not at all.
    Multi(Parts),
}

/// A question to the tree.
#[derive(Drop)]
pub enum Query {
    Get(Path),
    Stat(Path),
    Ls(Path),
}

impl Part {
    pub fn copy(&self) -> Result<Part, NoMemory>
        ensures { IfOk result (λ p. p ≡ self.now) }
    {
        match self {
            Part::Create { path, bytes, eph } => Ok(Part::Create {
                path: path.copy()?,
                bytes: bytes.copy()?,
                eph: *eph,
            }),
            Part::Set {
                path,
                bytes,
                version,
            } => Ok(Part::Set {
                path: path.copy()?,
                bytes: bytes.copy()?,
                version: *version,
            }),
            Part::Delete { path, version } => Ok(Part::Delete {
                path: path.copy()?,
                version: *version,
            }),
        }
    }
}

impl Request {
    pub fn copy(&self) -> Result<Request, NoMemory>
        ensures { IfOk result (λ r. r ≡ self.now) }
    {
        match self {
            Request::Create {
                path,
                bytes,
                seq,
                eph,
            } => Ok(Request::Create {
                path: path.copy()?,
                bytes: bytes.copy()?,
                seq: *seq,
                eph: *eph,
            }),
            Request::Set {
                path,
                bytes,
                version,
            } => Ok(Request::Set {
                path: path.copy()?,
                bytes: bytes.copy()?,
                version: *version,
            }),
            Request::Delete { path, version } => Ok(Request::Delete {
                path: path.copy()?,
                version: *version,
            }),
            Request::Close { evict } => Ok(Request::Close { evict: *evict }),
            Request::Multi(parts) => Ok(Request::Multi(parts.copy()?)),
        }
    }
}

impl Query {
    pub fn copy(&self) -> Result<Query, NoMemory>
        ensures { IfOk result (λ q. q ≡ self.now) }
    {
        match self {
            Query::Get(path) => Ok(Query::Get(path.copy()?)),
            Query::Stat(path) => Ok(Query::Stat(path.copy()?)),
            Query::Ls(path) => Ok(Query::Ls(path.copy()?)),
        }
    }
}
