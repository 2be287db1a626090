//! What the calls of a table answer.

ghost use Rattle.std.specs.Prelude.{◌≡◌, IfOk};

use crate::cond::Found;
use crate::lock::Lock;
use crate::node_record::NodeRecord;
use fk_base::{NoMemory, Paths};

/// What becomes of a transaction.
#[derive(Clone, Copy, Debug, PartialEq, Eq)]
pub enum Transact {
    /// All its writes were made.
    Done,
    /// The condition at this place, from 0, is the first that failed, and this was found there.
    Missed { place: usize, found: Found },
    Failed,
    NoMemory,
}

/// A record that was looked for.
#[derive(Drop)]
pub enum Seen<'a, R> {
    Here(&'a R),
    Missing,
    Failed,
}

/// The paths of a session's nodes.
#[derive(Drop)]
pub enum Owned {
    List(Paths),
    Failed,
    NoMemory,
}

impl Owned {
    pub fn copy(&self) -> Result<Owned, NoMemory>
        ensures { IfOk result (λ o. o ≡ self.now) }
    {
        match self {
            Owned::List(paths) => Ok(Owned::List(paths.copy()?)),
            Owned::Failed => Ok(Owned::Failed),
            Owned::NoMemory => Ok(Owned::NoMemory),
        }
    }
}

/// What becomes of taking a lock.
#[derive(Drop)]
pub enum Taken<'a> {
    /// The record after the grant.
    Granted(&'a NodeRecord),
    /// The held lock.
    Busy(Lock),
    Failed,
    NoMemory,
}
