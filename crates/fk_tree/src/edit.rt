ghost use Rattle.std.specs.Prelude.{◌≡◌, IfOk};

use fk_base::{Bytes, NoMemory, Path, Text};

/// What is done to one node.
#[derive(Drop)]
pub enum What {
    Make { bytes: Bytes, owner: u32 },
    Replace(Bytes),
    Remove,
    /// A child of this name came.
    AddName(Text),
    /// A child of this name went.
    DropName(Text),
}

/// One edit of one node.
#[derive(Drop)]
pub struct Edit {
    pub path: Path,
    pub what: What,
}

impl What {
    pub fn copy(&self) -> Result<What, NoMemory>
        ensures { IfOk result (λ w. w ≡ self.now) }
    {
        match self {
            What::Make { bytes, owner } => Ok(What::Make {
                bytes: bytes.copy()?,
                owner: *owner,
            }),
            What::Replace(bytes) => Ok(What::Replace(bytes.copy()?)),
            What::Remove => Ok(What::Remove),
            What::AddName(name) => Ok(What::AddName(name.copy()?)),
            What::DropName(name) => Ok(What::DropName(name.copy()?)),
        }
    }
}

impl Edit {
    pub fn copy(&self) -> Result<Edit, NoMemory>
        ensures { IfOk result (λ e. e ≡ self.now) }
    {
        Ok(Edit {
            path: self.path.copy()?,
            what: self.what.copy()?,
        })
    }
}
