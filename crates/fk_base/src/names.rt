ghost use Rattle.std.specs.Prelude.{◌≡◌, ◌↔◌, [], ◌∷◌, ◌++◌, length, IsTrue, IfOk, OnOk, OnErr};

use crate::memory::NoMemory;
use crate::text::Text;
use std::alloc::Global;
use std::marker::Model;

/// A list of names: the children of a node, the clients of a deployment.
#[derive(Drop)]
pub struct Names {
    items: Vec<Text>,
}

impl Model for Names {
    ghost use Rattle.std.specs.Prelude.{ℕ, List};

    ghost Value = { List (List ℕ) };

    ghost view = { λ n. n.items.items };
}

/// One name more or less.
impl Names {
    ghost use Rattle.std.specs.Prelude.{◌<◌, ◌≤◌, length, insert, remove};

    pub fn insert(&mut self, place: usize, name: Text) -> Result<(), NoMemory>
        requires { place ≤ length self.old }
        ensures ok { OnOk result (self.new ≡ insert self.old place name) }
        ensures err { OnErr result (self.new ≡ self.old) }
    {
        self.items.insert(place, name)?;
        Ok(())
    }

    pub fn remove(&mut self, place: usize) -> Text
        requires { place < length self.old }
        ensures { self.new ≡ remove self.old place }
    {
        self.items.remove(place)
    }
}

impl Names {
    pub fn new(alloc: Global) -> Self
        ensures { result ≡ [] }
    {
        Names {
            items: Vec::new(alloc),
        }
    }

    pub fn from_slice(alloc: Global, items: &[Text]) -> Result<Self, NoMemory>
        ensures { IfOk result (λ n. n ≡ items.now) }
    {
        let mut copies = Vec::new(alloc);
        'copying: for item in items {
            copies.push(item.copy()?)?;
        }
        Ok(Names { items: copies })
    }

    pub fn push(&mut self, item: Text) -> Result<(), NoMemory>
        ensures ok { OnOk result (self.new ≡ self.old ++ item ∷ []) }
        ensures err { OnErr result (self.new ≡ self.old) }
    {
        self.items.push(item)?;
        Ok(())
    }

    pub fn as_slice(&self) -> &[Text]
        ensures { result.now ≡ self.now }
    {
        self.items.as_slice()
    }

    pub fn len(&self) -> usize
        ensures { result ≡ length self.now }
    {
        self.items.len()
    }

    pub fn is_empty(&self) -> bool
        ensures { IsTrue result ↔ (self.now ≡ []) }
    {
        self.items.is_empty()
    }

    pub fn copy(&self) -> Result<Self, NoMemory>
        ensures { IfOk result (λ n. n ≡ self.now) }
    {
        Names::from_slice(self.allocator(), self.as_slice())
    }

    /// These names and one more.
    pub(crate) fn with(&self, name: &str) -> Result<Self, NoMemory>
        ensures { IfOk result (λ n. n ≡ self.now ++ name.now ∷ []) }
    {
        let mut names = self.copy()?;
        names.push(Text::from_str(self.allocator(), name)?)?;
        Ok(names)
    }

    pub(crate) fn allocator(&self) -> Global {
        *self.items.allocator()
    }
}
