ghost use Rattle.std.specs.Prelude.{◌≡◌, IfOk};

use fk_base::{NoMemory, Path};

/// How a path changes.
#[derive(Clone, Copy, Debug, PartialEq, Eq)]
pub enum Change {
    Created,
    Changed,
    Deleted,
    /// A child came or went.
    Child,
}

/// What a watch waits for: a change of a node or its data, or a change among its children.
#[derive(Clone, Copy, Debug, PartialEq, Eq)]
pub enum Kind {
    Data,
    Child,
}

/// A path that an applied request changes.
#[derive(Drop)]
pub struct Touch {
    pub path: Path,
    pub change: Change,
}

impl Touch {
    pub fn copy(&self) -> Result<Touch, NoMemory>
        ensures { IfOk result (λ t. t ≡ self.now) }
    {
        Ok(Touch {
            path: self.path.copy()?,
            change: self.change,
        })
    }
}
