//! Copies, which are the same in all that they have.

ghost use Rattle.std.specs.Prelude.{◌≡◌, IfOk};

use crate::command::{Command, PartCommand};
use crate::deployment::{Block, Deployment};
use fk_base::NoMemory;

impl PartCommand {
    pub fn copy(&self) -> Result<Self, NoMemory>
        ensures { IfOk result (λ p. p ≡ self.now) }
    {
        match self {
            PartCommand::Create { path, bytes, eph } => Ok(PartCommand::Create {
                path: path.copy()?,
                bytes: bytes.copy()?,
                eph: *eph,
            }),
            PartCommand::Set {
                path,
                bytes,
                version,
            } => Ok(PartCommand::Set {
                path: path.copy()?,
                bytes: bytes.copy()?,
                version: *version,
            }),
            PartCommand::Delete { path, version } => Ok(PartCommand::Delete {
                path: path.copy()?,
                version: *version,
            }),
        }
    }
}

impl Command {
    pub fn copy(&self) -> Result<Self, NoMemory>
        ensures { IfOk result (λ c. c ≡ self.now) }
    {
        match self {
            Command::Create {
                path,
                bytes,
                seq,
                eph,
                wait,
            } => Ok(Command::Create {
                path: path.copy()?,
                bytes: bytes.copy()?,
                seq: *seq,
                eph: *eph,
                wait: *wait,
            }),
            Command::Set {
                path,
                bytes,
                version,
                wait,
            } => Ok(Command::Set {
                path: path.copy()?,
                bytes: bytes.copy()?,
                version: *version,
                wait: *wait,
            }),
            Command::Delete {
                path,
                version,
                wait,
            } => Ok(Command::Delete {
                path: path.copy()?,
                version: *version,
                wait: *wait,
            }),
            Command::Get { path, watch } => Ok(Command::Get {
                path: path.copy()?,
                watch: *watch,
            }),
            Command::Stat { path, watch } => Ok(Command::Stat {
                path: path.copy()?,
                watch: *watch,
            }),
            Command::Ls { path, watch } => Ok(Command::Ls {
                path: path.copy()?,
                watch: *watch,
            }),
            Command::Close => Ok(Command::Close),
            Command::Multi { parts, wait } => Ok(Command::Multi {
                parts: parts.copy()?,
                wait: *wait,
            }),
        }
    }
}

impl Block {
    pub fn copy(&self) -> Result<Self, NoMemory>
        ensures { IfOk result (λ b. b ≡ self.now) }
    {
        Ok(Block {
            name: self.name.copy()?,
            commands: self.commands.copy()?,
        })
    }
}

impl Deployment {
    pub fn copy(&self) -> Result<Self, NoMemory>
        ensures { IfOk result (λ d. d ≡ self.now) }
    {
        Ok(Deployment {
            config: self.config,
            clients: self.clients.copy()?,
            turns: self.turns.copy()?,
            scheduled: self.scheduled,
        })
    }
}
