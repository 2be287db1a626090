//! Lists of this crate's types, which contracts see as lists.

ghost use Rattle.std.specs.Prelude.{◌≡◌, [], ◌∷◌, ◌++◌, IfOk, OnOk, OnErr};

use crate::command::{Command, PartCommand};
use crate::deployment::{Block, Turn};
use fk_base::NoMemory;
use std::alloc::Global;
use std::marker::Model;

/// A list of Commands: the commands of a client, in order.
#[derive(Drop)]
pub struct Commands {
    items: Vec<Command>,
}

impl Model for Commands {
    ghost use Rattle.std.specs.Prelude.{List};
    ghost use Rattle.fk_script.specs.declared.command.Command.{Command};

    ghost Value = { List Command };

    ghost view = { λ l. l.items.items };
}

impl Commands {
    pub fn new(alloc: Global) -> Self
        ensures { result ≡ [] }
    {
        Commands {
            items: Vec::new(alloc),
        }
    }

    pub fn push(&mut self, item: Command) -> Result<(), NoMemory>
        ensures ok { OnOk result (self.new ≡ self.old ++ item ∷ []) }
        ensures err { OnErr result (self.new ≡ self.old) }
    {
        self.items.push(item)?;
        Ok(())
    }

    pub fn as_slice(&self) -> &[Command]
        ensures { result.now ≡ self.now }
    {
        self.items.as_slice()
    }

    pub fn copy(&self) -> Result<Self, NoMemory>
        ensures { IfOk result (λ l. l ≡ self.now) }
    {
        let mut items = Vec::new(*self.items.allocator());
        'copying: for item in &self.items {
            items.push(item.copy()?)?;
        }
        Ok(Commands { items })
    }
}

/// A list of PartCommands: the parts of a multi, in order.
#[derive(Drop)]
pub struct PartCommands {
    items: Vec<PartCommand>,
}

impl Model for PartCommands {
    ghost use Rattle.std.specs.Prelude.{List};
    ghost use Rattle.fk_script.specs.declared.command.PartCommand.{PartCommand};

    ghost Value = { List PartCommand };

    ghost view = { λ l. l.items.items };
}

impl PartCommands {
    pub fn new(alloc: Global) -> Self
        ensures { result ≡ [] }
    {
        PartCommands {
            items: Vec::new(alloc),
        }
    }

    pub fn push(&mut self, item: PartCommand) -> Result<(), NoMemory>
        ensures ok { OnOk result (self.new ≡ self.old ++ item ∷ []) }
        ensures err { OnErr result (self.new ≡ self.old) }
    {
        self.items.push(item)?;
        Ok(())
    }

    pub fn as_slice(&self) -> &[PartCommand]
        ensures { result.now ≡ self.now }
    {
        self.items.as_slice()
    }

    pub fn copy(&self) -> Result<Self, NoMemory>
        ensures { IfOk result (λ l. l ≡ self.now) }
    {
        let mut items = Vec::new(*self.items.allocator());
        'copying: for item in &self.items {
            items.push(item.copy()?)?;
        }
        Ok(PartCommands { items })
    }
}

/// A list of Blocks: the clients of a deployment, in the order of the file.
#[derive(Drop)]
pub struct Clients {
    items: Vec<Block>,
}

impl Model for Clients {
    ghost use Rattle.std.specs.Prelude.{List};
    ghost use Rattle.fk_script.specs.declared.deployment.Block.{Block};

    ghost Value = { List Block };

    ghost view = { λ l. l.items.items };
}

impl Clients {
    pub fn new(alloc: Global) -> Self
        ensures { result ≡ [] }
    {
        Clients {
            items: Vec::new(alloc),
        }
    }

    pub fn push(&mut self, item: Block) -> Result<(), NoMemory>
        ensures ok { OnOk result (self.new ≡ self.old ++ item ∷ []) }
        ensures err { OnErr result (self.new ≡ self.old) }
    {
        self.items.push(item)?;
        Ok(())
    }

    pub fn as_slice(&self) -> &[Block]
        ensures { result.now ≡ self.now }
    {
        self.items.as_slice()
    }

    pub fn copy(&self) -> Result<Self, NoMemory>
        ensures { IfOk result (λ l. l ≡ self.now) }
    {
        let mut items = Vec::new(*self.items.allocator());
        'copying: for item in &self.items {
            items.push(item.copy()?)?;
        }
        Ok(Clients { items })
    }
}

/// A list of Turns: the schedule, in order.
#[derive(Drop)]
pub struct Turns {
    items: Vec<Turn>,
}

impl Model for Turns {
    ghost use Rattle.std.specs.Prelude.{List};
    ghost use Rattle.fk_script.specs.declared.deployment.Turn.{Turn};

    ghost Value = { List Turn };

    ghost view = { λ l. l.items.items };
}

impl Turns {
    pub fn new(alloc: Global) -> Self
        ensures { result ≡ [] }
    {
        Turns {
            items: Vec::new(alloc),
        }
    }

    pub fn push(&mut self, item: Turn) -> Result<(), NoMemory>
        ensures ok { OnOk result (self.new ≡ self.old ++ item ∷ []) }
        ensures err { OnErr result (self.new ≡ self.old) }
    {
        self.items.push(item)?;
        Ok(())
    }

    pub fn as_slice(&self) -> &[Turn]
        ensures { result.now ≡ self.now }
    {
        self.items.as_slice()
    }

    pub fn copy(&self) -> Result<Self, NoMemory>
        ensures { IfOk result (λ l. l ≡ self.now) }
    {
        Ok(Turns {
            items: self.items.clone()?,
        })
    }
}
