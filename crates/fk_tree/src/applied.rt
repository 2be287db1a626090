ghost use Rattle.std.specs.Prelude.{◌≡◌, IfOk};

use crate::lists::Mades;
use crate::request::Request;
use fk_base::{NoMemory, Path, Paths};

/// What a part of a multi came to: the final name of a create, else the root, and the new version
/// of a set, else 0.
#[derive(Drop)]
pub struct Made {
    pub name: Path,
    pub version: u32,
}

/// A request as it is applied to a tree: with its transaction, its moment and its sender, and with
/// what was computed from the tree at that place.
#[derive(Drop)]
pub struct Applied {
    pub tx: u64,
    pub moment: u64,
    pub session: u32,
    /// The request's number in its session, from 1.
    pub k: u64,
    pub request: Request,
    /// The final path of a create, else the root.
    pub name: Path,
    /// The new version of a set, else 0.
    pub version: u32,
    /// The paths that a close removes, in path order, else none.
    pub gone: Paths,
    /// One entry for each part of a multi, else none.
    pub made: Mades,
}

impl Made {
    pub fn copy(&self) -> Result<Made, NoMemory>
        ensures { IfOk result (λ m. m ≡ self.now) }
    {
        Ok(Made {
            name: self.name.copy()?,
            version: self.version,
        })
    }
}

impl Applied {
    pub fn copy(&self) -> Result<Applied, NoMemory>
        ensures { IfOk result (λ a. a ≡ self.now) }
    {
        Ok(Applied {
            tx: self.tx,
            moment: self.moment,
            session: self.session,
            k: self.k,
            request: self.request.copy()?,
            name: self.name.copy()?,
            version: self.version,
            gone: self.gone.copy()?,
            made: self.made.copy()?,
        })
    }
}
