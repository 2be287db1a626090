ghost use Rattle.std.specs.Prelude.{◌≡◌, [], ◌∷◌, reverse, IfOk, OnOk, OnErr};

use crate::entry::Entry;
use fk_base::NoMemory;
use std::alloc::Global;
use std::marker::Model;

/// What happened so far, entry by entry.
///
/// Memory keeps the oldest entry first; contracts see the newest first, so that the entries before
/// an entry are the tail behind it, and what a history says is read by recursion on the list.
#[derive(Drop)]
pub struct History {
    items: Vec<Entry>,
}

impl Model for History {
    ghost use Rattle.std.specs.Prelude.{List, reverse};
    ghost use Rattle.fk_print.specs.declared.entry.Entry.{Entry};

    ghost Value = { List Entry };

    ghost view = { λ h. reverse h.items.items };
}

impl History {
    pub fn new(alloc: Global) -> Self
        ensures { result ≡ [] }
    {
        History {
            items: Vec::new(alloc),
        }
    }

    pub fn push(&mut self, item: Entry) -> Result<(), NoMemory>
        ensures ok { OnOk result (self.new ≡ item ∷ self.old) }
        ensures err { OnErr result (self.new ≡ self.old) }
    {
        self.items.push(item)?;
        Ok(())
    }

    /// The entries, the oldest first.
    pub fn as_slice(&self) -> &[Entry]
        ensures { result.now ≡ reverse self.now }
    {
        self.items.as_slice()
    }

    pub fn copy(&self) -> Result<Self, NoMemory>
        ensures { IfOk result (λ h. h ≡ self.now) }
    {
        let mut items = Vec::new(*self.items.allocator());
        'copying: for item in &self.items {
            items.push(item.copy()?)?;
        }
        Ok(History { items })
    }
}
