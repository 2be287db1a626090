//! Lists of this crate's types, which contracts see as lists.

ghost use Rattle.std.specs.Prelude.{◌≡◌, [], ◌∷◌, ◌++◌, IfOk, OnOk, OnErr};

use crate::applied::Made;
use crate::change::Touch;
use crate::edit::Edit;
use crate::reply::PartReply;
use crate::request::Part;
use fk_base::NoMemory;
use std::alloc::Global;
use std::marker::Model;

/// The parts of a multi, in order.
#[derive(Drop)]
pub struct Parts {
    items: Vec<Part>,
}

impl Model for Parts {
    ghost use Rattle.std.specs.Prelude.{List};
    ghost use Rattle.fk_tree.specs.declared.request.Part.{Part};

    ghost Value = { List Part };

    ghost view = { λ l. l.items.items };
}

impl Parts {
    pub fn new(alloc: Global) -> Self
        ensures { result ≡ [] }
    {
        Parts {
            items: Vec::new(alloc),
        }
    }

    pub fn push(&mut self, item: Part) -> Result<(), NoMemory>
        ensures ok { OnOk result (self.new ≡ self.old ++ item ∷ []) }
        ensures err { OnErr result (self.new ≡ self.old) }
    {
        self.items.push(item)?;
        Ok(())
    }

    pub fn as_slice(&self) -> &[Part]
        ensures { result.now ≡ self.now }
    {
        self.items.as_slice()
    }

    pub fn copy(&self) -> Result<Self, NoMemory>
        ensures { IfOk result (λ l. l ≡ self.now) }
    {
        let mut items = Vec::new(*self.items.allocator());
        'copying: for item in &self.items {
            items.push(item.copy()?)?;
        }
        Ok(Parts { items })
    }
}

/// What the parts of a multi came to, in order.
#[derive(Drop)]
pub struct Mades {
    items: Vec<Made>,
}

impl Model for Mades {
    ghost use Rattle.std.specs.Prelude.{List};
    ghost use Rattle.fk_tree.specs.declared.applied.Made.{Made};

    ghost Value = { List Made };

    ghost view = { λ l. l.items.items };
}

impl Mades {
    pub fn new(alloc: Global) -> Self
        ensures { result ≡ [] }
    {
        Mades {
            items: Vec::new(alloc),
        }
    }

    pub fn push(&mut self, item: Made) -> Result<(), NoMemory>
        ensures ok { OnOk result (self.new ≡ self.old ++ item ∷ []) }
        ensures err { OnErr result (self.new ≡ self.old) }
    {
        self.items.push(item)?;
        Ok(())
    }

    pub fn as_slice(&self) -> &[Made]
        ensures { result.now ≡ self.now }
    {
        self.items.as_slice()
    }

    pub fn copy(&self) -> Result<Self, NoMemory>
        ensures { IfOk result (λ l. l ≡ self.now) }
    {
        let mut items = Vec::new(*self.items.allocator());
        'copying: for item in &self.items {
            items.push(item.copy()?)?;
        }
        Ok(Mades { items })
    }
}

/// What the parts of a multi are answered, in order.
#[derive(Drop)]
pub struct Replies {
    items: Vec<PartReply>,
}

impl Model for Replies {
    ghost use Rattle.std.specs.Prelude.{List};
    ghost use Rattle.fk_tree.specs.declared.reply.PartReply.{PartReply};

    ghost Value = { List PartReply };

    ghost view = { λ l. l.items.items };
}

impl Replies {
    pub fn new(alloc: Global) -> Self
        ensures { result ≡ [] }
    {
        Replies {
            items: Vec::new(alloc),
        }
    }

    pub fn push(&mut self, item: PartReply) -> Result<(), NoMemory>
        ensures ok { OnOk result (self.new ≡ self.old ++ item ∷ []) }
        ensures err { OnErr result (self.new ≡ self.old) }
    {
        self.items.push(item)?;
        Ok(())
    }

    pub fn as_slice(&self) -> &[PartReply]
        ensures { result.now ≡ self.now }
    {
        self.items.as_slice()
    }

    pub fn copy(&self) -> Result<Self, NoMemory>
        ensures { IfOk result (λ l. l ≡ self.now) }
    {
        let mut items = Vec::new(*self.items.allocator());
        'copying: for item in &self.items {
            items.push(item.copy()?)?;
        }
        Ok(Replies { items })
    }
}

/// The changes of an applied request, in order.
#[derive(Drop)]
pub struct Touches {
    items: Vec<Touch>,
}

impl Model for Touches {
    ghost use Rattle.std.specs.Prelude.{List};
    ghost use Rattle.fk_tree.specs.declared.change.Touch.{Touch};

    ghost Value = { List Touch };

    ghost view = { λ l. l.items.items };
}

impl Touches {
    pub fn new(alloc: Global) -> Self
        ensures { result ≡ [] }
    {
        Touches {
            items: Vec::new(alloc),
        }
    }

    pub fn push(&mut self, item: Touch) -> Result<(), NoMemory>
        ensures ok { OnOk result (self.new ≡ self.old ++ item ∷ []) }
        ensures err { OnErr result (self.new ≡ self.old) }
    {
        self.items.push(item)?;
        Ok(())
    }

    pub fn as_slice(&self) -> &[Touch]
        ensures { result.now ≡ self.now }
    {
        self.items.as_slice()
    }

    pub fn copy(&self) -> Result<Self, NoMemory>
        ensures { IfOk result (λ l. l ≡ self.now) }
    {
        let mut items = Vec::new(*self.items.allocator());
        'copying: for item in &self.items {
            items.push(item.copy()?)?;
        }
        Ok(Touches { items })
    }
}

/// Edits in the order in which they are made.
#[derive(Drop)]
pub struct Edits {
    items: Vec<Edit>,
}

impl Model for Edits {
    ghost use Rattle.std.specs.Prelude.{List};
    ghost use Rattle.fk_tree.specs.declared.edit.Edit.{Edit};

    ghost Value = { List Edit };

    ghost view = { λ l. l.items.items };
}

impl Edits {
    pub fn new(alloc: Global) -> Self
        ensures { result ≡ [] }
    {
        Edits {
            items: Vec::new(alloc),
        }
    }

    pub fn push(&mut self, item: Edit) -> Result<(), NoMemory>
        ensures ok { OnOk result (self.new ≡ self.old ++ item ∷ []) }
        ensures err { OnErr result (self.new ≡ self.old) }
    {
        self.items.push(item)?;
        Ok(())
    }

    pub(crate) fn allocator(&self) -> Global {
        *self.items.allocator()
    }

    pub fn as_slice(&self) -> &[Edit]
        ensures { result.now ≡ self.now }
    {
        self.items.as_slice()
    }

    pub fn copy(&self) -> Result<Self, NoMemory>
        ensures { IfOk result (λ l. l ≡ self.now) }
    {
        let mut items = Vec::new(*self.items.allocator());
        'copying: for item in &self.items {
            items.push(item.copy()?)?;
        }
        Ok(Edits { items })
    }
}
