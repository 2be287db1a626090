//! What the calls of a table of watches answer.

ghost use Rattle.std.specs.Prelude.{◌≡◌, IfOk};

use fk_base::NoMemory;
use fk_user::IdSet;
use fk_wire::FiredList;

/// What becomes of the registration of a watch.
#[derive(Clone, Copy, Debug, PartialEq, Eq)]
pub enum Register {
    /// The number of the set watch.
    Done(u64),
    /// The path was swept beyond the mark, the last time for this transaction.
    Swept(u64),
    Failed,
    NoMemory,
}

/// What becomes of a sweep.
#[derive(Drop)]
pub enum Sweep {
    /// These watches fired; `epoch` has the numbers of all that have fired and aren't told.
    Fired {
        fired: FiredList,
        epoch: IdSet,
    },
    /// The greatest swept transaction is not below this one, whose watches that aren't told are
    /// `fired`.
    Already {
        swept: u64,
        fired: FiredList,
        epoch: IdSet,
    },
    Failed,
    NoMemory,
}

/// What becomes of telling.
#[derive(Clone, Copy, Debug, PartialEq, Eq)]
pub enum Told {
    Done,
    Failed,
}

impl Sweep {
    pub fn copy(&self) -> Result<Sweep, NoMemory>
        ensures { IfOk result (λ s. s ≡ self.now) }
    {
        match self {
            Sweep::Fired { fired, epoch } => Ok(Sweep::Fired {
                fired: fired.copy()?,
                epoch: epoch.copy()?,
            }),
            Sweep::Already {
                swept,
                fired,
                epoch,
            } => Ok(Sweep::Already {
                swept: *swept,
                fired: fired.copy()?,
                epoch: epoch.copy()?,
            }),
            Sweep::Failed => Ok(Sweep::Failed),
            Sweep::NoMemory => Ok(Sweep::NoMemory),
        }
    }
}
