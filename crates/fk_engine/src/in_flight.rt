//! The numbers of the functions in flight.

ghost use Rattle.std.specs.Prelude.{◌≡◌, ℕ, ◌<◌, [], ◌∷◌, ◌++◌, true, false, IfNone, IfSome, OnErr, OnOk, slice_get, Some};
ghost use Rattle.fk_user.specs.Ids.{has_id, ids_rise, without_id};

use fk_base::NoMemory;
use std::alloc::Global;
use std::marker::Model;

/// Numbers in rising order. The least is taken out in constant time.
#[derive(Drop)]
pub struct InFlight {
    items: Vec<u64>,
    /// How many of the items were taken out at the front.
    first: usize,
}

impl Model for InFlight {
    ghost use Rattle.std.specs.Prelude.{◌≡◌, ◌≤◌, ℕ, List, drop, length, true};
    ghost use Rattle.fk_user.specs.Ids.{ids_rise};

    ghost Value = { List ℕ };

    ghost view = { λ s. drop s.first s.items.items };

    ghost invariant = { λ s. (s.first ≤ length s.items.items)
        × (ids_rise (drop s.first s.items.items) ≡ true) };
}

impl InFlight {
    pub fn new(alloc: Global) -> Self
        ensures { result ≡ [] }
    {
        InFlight {
            items: Vec::new(alloc),
            first: 0,
        }
    }

    /// The numbers, from the least on.
    pub fn as_slice(&self) -> &[u64]
        ensures same { result.now ≡ self.now }
        ensures rising { ids_rise self.now ≡ true }
    {
        self.items.as_slice().split_at(self.first).1
    }

    /// Adds a number above all that are there.
    pub fn push(&mut self, number: u64) -> Result<(), NoMemory>
        requires { (n : ℕ) → has_id n self.old ≡ true → n < number }
        ensures ok { OnOk result (self.new ≡ self.old ++ number ∷ []) }
        ensures err { OnErr result (self.new ≡ self.old) }
    {
        self.items.push(number)?;
        Ok(())
    }

    // the place of a number
    fn place_of(&self, number: u64) -> Option<usize>
        ensures some { IfSome result (λ i. slice_get self.now i ≡ Some number) }
        ensures none { IfNone result (has_id number self.now ≡ false) }
    {
        match self.as_slice().binary_search(&number) {
            Ok(place) => Some(place),
            Err(_) => None,
        }
    }

    /// Takes a number out, where it is there.
    pub fn remove(&mut self, number: u64)
        ensures { self.new ≡ without_id number self.old }
    {
        let Some(place) = self.place_of(number) else {
            return;
        };
        // its list is as long as a number counts
        let _length = self.items.as_slice().len();
        if place == 0 {
            self.first += 1;
        } else {
            self.items.remove(self.first + place);
        }
    }
}
