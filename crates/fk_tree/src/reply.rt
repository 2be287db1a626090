ghost use Rattle.std.specs.Prelude.{◌≡◌, IfOk};

use crate::lists::Replies;
use crate::node::Stat;
use fk_base::{Bytes, Names, NoMemory, Path};

/// What a part of a multi is answered.
#[derive(Drop)]
pub enum PartReply {
    Created(Path),
    Version(u32),
    Deleted,
}

/// What a request is answered once it is applied.
#[derive(Drop)]
pub enum Reply {
    /// The final path.
    Created(Path),
    /// The new version.
    Version(u32),
    Deleted,
    Closed,
    Multi(Replies),
}

/// What a query is answered.
#[derive(Drop)]
pub enum Answer {
    Got(Bytes, Stat),
    Stated(Stat),
    /// The names of the children, sorted by their bytes.
    Listed(Names),
    NoNode,
}

impl PartReply {
    pub fn copy(&self) -> Result<PartReply, NoMemory>
        ensures { IfOk result (λ r. r ≡ self.now) }
    {
        match self {
            PartReply::Created(path) => Ok(PartReply::Created(path.copy()?)),
            PartReply::Version(version) => Ok(PartReply::Version(*version)),
            PartReply::Deleted => Ok(PartReply::Deleted),
        }
    }
}

impl Reply {
    pub fn copy(&self) -> Result<Reply, NoMemory>
        ensures { IfOk result (λ r. r ≡ self.now) }
    {
        match self {
            Reply::Created(path) => Ok(Reply::Created(path.copy()?)),
            Reply::Version(version) => Ok(Reply::Version(*version)),
            Reply::Deleted => Ok(Reply::Deleted),
            Reply::Closed => Ok(Reply::Closed),
            Reply::Multi(replies) => Ok(Reply::Multi(replies.copy()?)),
        }
    }
}

impl Answer {
    pub fn copy(&self) -> Result<Answer, NoMemory>
        ensures { IfOk result (λ a. a ≡ self.now) }
    {
        match self {
            Answer::Got(bytes, stat) => Ok(Answer::Got(bytes.copy()?, *stat)),
            Answer::Stated(stat) => Ok(Answer::Stated(*stat)),
            Answer::Listed(names) => Ok(Answer::Listed(names.copy()?)),
            Answer::NoNode => Ok(Answer::NoNode),
        }
    }
}
