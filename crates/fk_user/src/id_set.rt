//! A set of numbers in rising order.

ghost use Rattle.std.specs.Prelude.{◌≡◌, ◌↔◌, ◌<◌, [], ◌∷◌, ◌++◌, length, true, IsTrue, Contains, IfOk, OnOk, OnErr, All, slice_get};
ghost use Rattle.fk_user.specs.Ids.{has_id, ids_rise, with_id, without_id};

use fk_base::NoMemory;
use indexmap::IndexSet;
use std::alloc::Global;
use std::marker::Model;

/// Numbers in rising order, each once, such as those of watches.
#[derive(Drop)]
pub struct IdSet {
    items: IndexSet<u64>,
}

impl Model for IdSet {
    ghost use Rattle.std.specs.Prelude.{◌≡◌, ℕ, List, true};
    ghost use Rattle.fk_user.specs.Ids.{ids_rise};

    ghost Value = { List ℕ };

    ghost view = { λ s. s.items.keys };

    ghost invariant = { λ s. ids_rise s.items.keys ≡ true };
}

impl IdSet {
    pub fn new(alloc: Global) -> Self
        ensures { result ≡ [] }
    {
        IdSet {
            items: IndexSet::new(alloc),
        }
    }

    /// Adds a number at its place: in constant time above all that are there, else in linear time.
    #[tactic(auto, using(crate::proofs::Placing::pushed, crate::proofs::Placing::with_rises))]
    pub fn insert(&mut self, id: u64) -> Result<(), NoMemory>
        ensures ok { OnOk result (self.new ≡ with_id id self.old) }
        ensures err { OnErr result (self.new ≡ self.old) }
    {
        if self.is_above_all(id) {
            self.items.insert(id)?;
        } else {
            self.items.insert_sorted(id)?;
        }
        Ok(())
    }

    // whether the number is above all that are there
    fn is_above_all(&self, id: u64) -> bool
        ensures { IsTrue result ↔ All (λ n. n < id) self.now }
    {
        match self.items.last() {
            None => true,
            Some(last) => *last < id,
        }
    }

    /// Takes a number out, in linear time.
    #[tactic(auto, using(crate::proofs::Placing::taken, crate::proofs::Placing::without_rises))]
    pub fn remove(&mut self, id: u64)
        ensures { self.new ≡ without_id id self.old }
    {
        self.items.shift_remove(&id);
    }

    /// Whether the number is there, in constant time.
    #[tactic(auto, using(crate::proofs::Placing::has_any, crate::proofs::Placing::member, crate::proofs::Placing::has_member))]
    pub fn contains(&self, id: u64) -> bool
        ensures test { result ≡ has_id id self.now }
        ensures there { IsTrue result ↔ Contains self.now id }
    {
        self.items.contains(&id)
    }

    /// The first number, in constant time.
    pub fn least(&self) -> Option<u64>
        ensures { result ≡ slice_get self.now 0 }
    {
        self.items.first().copied()
    }

    pub fn len(&self) -> usize
        ensures { result ≡ length self.now }
    {
        self.items.len()
    }

    pub fn is_empty(&self) -> bool
        ensures { IsTrue result ↔ (self.now ≡ []) }
    {
        self.items.is_empty()
    }

    /// The numbers, from the least on.
    pub fn as_slice(&self) -> &[u64]
        ensures same { result.now ≡ self.now }
        ensures rising { ids_rise self.now ≡ true }
    {
        self.items.as_slice()
    }

    pub fn copy(&self) -> Result<Self, NoMemory>
        ensures { IfOk result (λ s. s ≡ self.now) }
    {
        Ok(IdSet {
            items: self.items.clone()?,
        })
    }
}
