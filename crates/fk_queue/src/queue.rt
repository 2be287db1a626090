//! One lane.

ghost use Rattle.std.specs.Prelude.{◌≡◌, ◌+◌, ◌-◌, ◌^◌, ◌<◌, List, length, replicate, IfOk, OnOk, OnErr};
ghost use Rattle.fk_region.specs.Kept.{Kept, blocks_of};
ghost use Rattle.fk_queue.specs.Keeping.{IsFirst};
ghost use Rattle.fk_queue.specs.Letters.{head_number};
ghost use Rattle.fk_queue.specs.Slips.{GivesBack, IsFirstKept, Takes, lane_of, no_slips, tickets_in};

use crate::slip::Slip;
use fk_base::NoMemory;
use fk_region::{Region, Ticket};
use std::alloc::Global;
use std::collections::VecDeque;
use std::marker::Model;

/// A lane: how many messages it was given, and a slip for each that waits.
#[derive(Drop)]
pub struct Queue {
    given: u64,
    waiting: VecDeque<Slip>,
}

impl Model for Queue {
    ghost use Rattle.fk_queue.specs.Slips.{Slips};

    ghost Value = { Slips };

    ghost view = { λ q. record { given = q.given; waiting = q.waiting.items } };
}

// how many blocks of 256 bytes hold so many bytes
fn blocks_of(len: usize) -> usize
    ensures { result ≡ blocks_of len }
{
    len.div_ceil(256)
}

impl Queue {
    pub fn new(alloc: Global) -> Queue
        ensures { result ≡ no_slips }
    {
        Queue {
            given: 0,
            waiting: VecDeque::new(alloc),
        }
    }

    /// Adds a message at the end, whose bytes the region keeps, and gives its number. It takes all its
    /// memory first: room in the lane, then blocks.
    pub fn push(&mut self, region: &mut Region, message: &[u8]) -> Result<u64, NoMemory>
        requires message { 0 < length message.now }
        requires room { self.old.given < 2 ^ 63 - 1 }
        ensures number { IfOk result (λ n. n ≡ self.old.given + 1) }
        ensures ok { OnOk result (Takes message.now self.old self.new region.old.kept
            region.new.kept) }
        ensures err { OnErr result ((self.new ≡ self.old) × (region.new ≡ region.old)) }
    {
        let number = self.given + 1;
        self.waiting.reserve(1)?;
        region.reserve(blocks_of(message.len()))?;
        let ticket = region.put(message);
        self.waiting.push_back_reserved(Slip { number, ticket });
        self.given = number;
        Ok(number)
    }

    /// Removes the head, where there is one, and gives its ticket back.
    pub fn pop(&mut self, region: &mut Region)
        requires { IsFirstKept region.old.kept self.old.waiting }
        ensures { GivesBack self.old self.new region.old.kept region.new.kept }
    {
        if let Some(slip) = self.waiting.pop_front() {
            region.give_back(slip.ticket);
        }
    }

    /// The head's number.
    pub fn head(&self) -> Option<u64>
        ensures { (ks : List Kept) → result ≡ head_number (lane_of ks self.now) }
    {
        match self.waiting.front() {
            None => None,
            Some(slip) => Some(slip.number),
        }
    }

    /// The head's ticket.
    pub fn head_ticket(&self) -> &Ticket
        requires { 0 < length self.now.waiting }
        ensures { IsFirst result.now (tickets_in self.now) }
    {
        &self.waiting[0].ticket
    }
}

/// So many empty lanes.
pub fn new_queues(alloc: Global, count: usize) -> Result<Vec<Queue>, NoMemory>
    ensures { IfOk result (λ qs. qs.items ≡ replicate count no_slips) }
{
    let mut queues = Vec::new(alloc);
    'making: for _made in 0..count {
        queues.push(Queue::new(alloc))?;
    }
    Ok(queues)
}
