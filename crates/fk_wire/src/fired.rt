//! Watches that fired.

ghost use Rattle.std.specs.Prelude.{◌≡◌, [], ◌∷◌, ◌++◌, IfOk, OnOk, OnErr};

use fk_base::{NoMemory, Path};
use fk_tree::{Change, Kind};
use std::alloc::Global;
use std::marker::Model;

/// A watch that fired: whose it is, what it waited for and what happened.
#[derive(Drop)]
pub struct Fired {
    pub id: u64,
    pub session: u32,
    pub path: Path,
    pub kind: Kind,
    pub change: Change,
}

impl Fired {
    pub fn copy(&self) -> Result<Fired, NoMemory>
        ensures { IfOk result (λ f. f ≡ self.now) }
    {
        Ok(Fired {
            id: self.id,
            session: self.session,
            path: self.path.copy()?,
            kind: self.kind,
            change: self.change,
        })
    }
}

/// The watches that one transaction fired, in order.
#[derive(Drop)]
pub struct FiredList {
    items: Vec<Fired>,
}

impl Model for FiredList {
    ghost use Rattle.std.specs.Prelude.{List};
    ghost use Rattle.fk_wire.specs.declared.fired.Fired.{Fired};

    ghost Value = { List Fired };

    ghost view = { λ l. l.items.items };
}

impl FiredList {
    pub fn new(alloc: Global) -> Self
        ensures { result ≡ [] }
    {
        FiredList {
            items: Vec::new(alloc),
        }
    }

    pub fn push(&mut self, item: Fired) -> Result<(), NoMemory>
        ensures ok { OnOk result (self.new ≡ self.old ++ item ∷ []) }
        ensures err { OnErr result (self.new ≡ self.old) }
    {
        self.items.push(item)?;
        Ok(())
    }

    pub fn as_slice(&self) -> &[Fired]
        ensures { result.now ≡ self.now }
    {
        self.items.as_slice()
    }

    pub fn copy(&self) -> Result<Self, NoMemory>
        ensures { IfOk result (λ l. l ≡ self.now) }
    {
        let mut items = Vec::new(*self.items.allocator());
        'copying: for item in &self.items {
            items.push(item.copy()?)?;
        }
        Ok(FiredList { items })
    }
}
