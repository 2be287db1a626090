ghost use Rattle.std.specs.Prelude.{◌≡◌, IfOk};
ghost use Rattle.fk_tree.specs.Watch.{takes};

use fk_base::{NoMemory, Path};
use fk_tree::{Change, Kind};

/// A watch: whose it is, of which path, and what it waits for.
#[derive(Drop)]
pub struct Watch {
    pub session: u32,
    pub path: Path,
    pub kind: Kind,
}

/// A watch that fired: the transaction that fired it, and the change that it shows.
#[derive(Drop)]
pub struct Firing {
    pub watch: Watch,
    pub tx: u64,
    pub change: Change,
}

impl Watch {
    pub fn copy(&self) -> Result<Watch, NoMemory>
        ensures { IfOk result (λ w. w ≡ self.now) }
    {
        Ok(Watch {
            session: self.session,
            path: self.path.copy()?,
            kind: self.kind,
        })
    }
}

/// Whether a watch of a kind takes a change.
pub fn takes(kind: Kind, change: Change) -> bool
    ensures { result ≡ takes kind change }
{
    match kind {
        Kind::Data => change != Change::Child,
        Kind::Child => change == Change::Child || change == Change::Deleted,
    }
}
