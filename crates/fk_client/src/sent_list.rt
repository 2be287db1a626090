//! The list of the commands that a client sent or refused itself and didn't answer.

ghost use Rattle.std.specs.Prelude.{◌≡◌, ◌≤◌, ◌++◌, ◌∷◌, [], length, MatchOption, Some, None, OnOk, OnErr};
ghost use Rattle.fk_spec.specs.Client.{is_none_sent, with_told};
ghost use Rattle.fk_client.specs.Known.{by_outcome, place_of};
ghost use Rattle.fk_client.specs.Unanswered.{AreTold, IsFirst, KeepsFront, last_of};

use crate::unanswered::{Outcome, Unanswered};
use fk_base::NoMemory;
use std::alloc::Global;
use std::collections::VecDeque;
use std::marker::Model;

/// The commands, which it means, in the order in which they were begun. A call takes constant time
/// where what is told comes in that order.
#[derive(Drop)]
pub struct SentList {
    items: VecDeque<Unanswered>,
    /// Something is known of each of these many at the front.
    told: usize,
}

impl Model for SentList {
    ghost use Rattle.std.specs.Prelude.{List};
    ghost use Rattle.fk_client.specs.Unanswered.{AreTold};
    ghost use Rattle.fk_client.specs.declared.unanswered.Unanswered.{Unanswered};

    ghost Value = { List Unanswered };

    ghost view = { λ l. l.items.items };

    ghost invariant = { λ l. AreTold l.told l.items.items };
}

// the place of the first open command that was sent under this number, where these many in front
// are told
#[tactic(auto, using(crate::proofs::Telling::told_passed, crate::proofs::Telling::told_within, crate::proofs::Telling::place_step, crate::proofs::Telling::place_end))]
fn place_of(items: &VecDeque<Unanswered>, told: usize, k: u64) -> usize
    requires { AreTold told items.now.items }
    ensures place { result ≡ place_of k items.now.items }
    ensures behind { told ≤ result }
    ensures within { result ≤ length items.now.items }
{
    let mut place = told;
    'passing: while let Some(item) = items.get(place) {
        if item.k == k && item.outcome.is_open() {
            return place;
        }
        place += 1;
    }
    place
}

// gives an outcome to the first open command that was sent under this number
#[tactic(auto, using(crate::proofs::Settling::settled_there, crate::proofs::Settling::settled_nowhere, crate::proofs::Telling::told_set))]
fn tell(items: &mut VecDeque<Unanswered>, told: usize, k: u64, outcome: Outcome)
    requires { AreTold told items.old.items }
    ensures items { items.new.items ≡ with_told by_outcome k outcome items.old.items }
    ensures told { AreTold told items.new.items }
{
    let place = place_of(items, told, k);
    if place < items.len() {
        items[place].outcome = outcome;
    }
}

// how many in front are told, where these are
#[tactic(auto, using(crate::proofs::Telling::told_next, crate::proofs::Telling::told_within))]
fn told_from(items: &VecDeque<Unanswered>, told: usize) -> usize
    requires { AreTold told items.now.items }
    ensures { AreTold result items.now.items }
{
    let mut told = told;
    'passing: while let Some(item) = items.get(told) {
        if item.outcome.is_open() {
            return told;
        }
        told += 1;
    }
    told
}

impl SentList {
    pub fn new(alloc: Global) -> SentList
        ensures { result ≡ [] }
    {
        SentList {
            items: VecDeque::new(alloc),
            told: 0,
        }
    }

    #[tactic(auto, using(crate::proofs::Waiting::first_sent))]
    pub fn is_empty(&self) -> bool
        ensures { result ≡ is_none_sent self.now }
    {
        match self.first() {
            None => true,
            Some(_) => false,
        }
    }

    #[tactic(auto, using(crate::proofs::Waiting::first_is, crate::proofs::Telling::none_left))]
    pub fn first(&self) -> Option<&Unanswered>
        ensures { MatchOption result (self.now ≡ []) (λ s. IsFirst s.now self.now) }
    {
        self.items.front()
    }

    #[tactic(auto, using(crate::proofs::Waiting::last_is, crate::proofs::Waiting::last_none))]
    pub fn last(&self) -> Option<&Unanswered>
        ensures { MatchOption result (last_of self.now ≡ None)
            (λ s. last_of self.now ≡ Some s.now) }
    {
        self.items.back()
    }

    #[tactic(auto, using(crate::proofs::Telling::told_more))]
    pub fn push(&mut self, item: Unanswered) -> Result<(), NoMemory>
        ensures ok { OnOk result (self.new ≡ self.old ++ item ∷ []) }
        ensures err { OnErr result (self.new ≡ self.old) }
    {
        self.items.push_back(item)?;
        Ok(())
    }

    /// Takes out the first.
    #[tactic(auto, using(crate::proofs::Telling::told_rest, crate::proofs::Telling::none_left, crate::proofs::Waiting::front_tail))]
    pub fn pop(&mut self) -> Option<Unanswered>
        ensures first { MatchOption result ((self.old ≡ []) × (self.new ≡ []))
            (λ s. self.old ≡ s ∷ self.new) }
        ensures front { KeepsFront self.old self.new }
    {
        let first = self.items.pop_front();
        self.told = self.told.saturating_sub(1);
        first
    }

    /// The command that was sent under a number, where nothing is known of it yet, has this
    /// outcome.
    pub fn settle(&mut self, k: u64, outcome: Outcome)
        ensures { self.new ≡ with_told by_outcome k outcome self.old }
    {
        tell(&mut self.items, self.told, k, outcome);
        self.told = told_from(&self.items, self.told);
    }
}
