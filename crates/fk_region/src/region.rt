//! The region.

ghost use Rattle.std.specs.Prelude.{◌≡◌, ℕ, ◌+◌, ◌<◌, ◌≤◌, length, true, Some, None, OnOk, OnErr};
ghost use Rattle.fk_region.specs.declared.ticket.Ticket.{Ticket};
ghost use Rattle.fk_region.specs.Kept.{blocks_of, bytes_of, bytes_under, is_kept, used_by, without_ticket};
ghost use Rattle.fk_region.specs.Meaning.{HasRoom, new_region, returned, stored};

use crate::block::{BLOCK_SIZE, Block, NEW_BLOCK};
use crate::chain::{keep, link, read, release};
use crate::ticket::Ticket;
use fk_base::NoMemory;
use std::alloc::Global;
use std::marker::Model;

/// Memory for messages, in blocks of 256 bytes. Each block is free, or one of those of a message that is kept.
#[derive(Drop)]
pub struct Region {
    blocks: Vec<Block>,
    // the first free block, where there is one; its chain has the others
    free: usize,
    spare: usize,
}

impl Model for Region {
    ghost use Rattle.std.specs.Prelude.{length};
    ghost use Rattle.fk_region.specs.Blocks.{meaning_of};
    ghost use Rattle.fk_region.specs.Chains.{AreSound};
    ghost use Rattle.fk_region.specs.Meaning.{RegionMeaning};

    ghost Value = { RegionMeaning };

    ghost view = { λ r. meaning_of r.blocks.items r.spare };

    ghost invariant = { λ r. AreSound r.blocks.items r.free r.spare (length r.blocks.items) };
}

// how many blocks hold so many bytes
fn blocks_needed(bytes: usize) -> usize
    ensures { result ≡ blocks_of bytes }
{
    bytes.div_ceil(BLOCK_SIZE)
}

impl Region {
    /// A new region has no block.
    pub fn new(alloc: Global) -> Region
        ensures { result ≡ new_region }
    {
        Region {
            blocks: Vec::new(alloc),
            free: 0,
            spare: 0,
        }
    }

    /// Sees to it that so many blocks are free. Refused, it changes nothing.
    pub fn reserve(&mut self, blocks: usize) -> Result<(), NoMemory>
        ensures ok { OnOk result (HasRoom blocks self.old self.new) }
        ensures err { OnErr result (self.new ≡ self.old) }
    {
        if blocks <= self.spare {
            return Ok(());
        }
        let missing = blocks - self.spare;
        let total = self.blocks.len();
        if usize::MAX - total < missing {
            return Err(NoMemory);
        }
        self.blocks.resize(total + missing, NEW_BLOCK)?;
        self.free = link(self.blocks.as_mut_slice(), total, self.free);
        self.spare += missing;
        Ok(())
    }

    /// Keeps the bytes in blocks that were free, as many as they need, and gives the ticket for them.
    pub fn put(&mut self, bytes: &[u8]) -> Ticket
        requires some { 0 < length bytes.now }
        requires room { blocks_of (length bytes.now) ≤ self.old.spare }
        ensures fresh { bytes_under result self.old.kept ≡ None }
        ensures after { self.new ≡ stored result bytes.now self.old }
        ensures found { bytes_under result self.new.kept ≡ Some bytes.now }
    {
        let first = self.free;
        let length = bytes.len();
        self.free = keep(self.blocks.as_mut_slice(), first, bytes);
        self.spare -= blocks_needed(length);
        Ticket { first, length }
    }

    /// How many bytes are kept under a ticket.
    pub fn len(&self, ticket: &Ticket) -> usize
        requires { is_kept ticket.now self.now.kept ≡ true }
        ensures { result ≡ length (bytes_of ticket.now self.now.kept) }
    {
        let _blocks = &self.blocks;
        ticket.length
    }

    /// Moves what is kept under a ticket into a slice of its length.
    pub fn copy_out(&self, ticket: &Ticket, into: &mut [u8])
        requires kept { is_kept ticket.now self.now.kept ≡ true }
        requires len { length into.old ≡ length (bytes_of ticket.now self.now.kept) }
        ensures { into.new ≡ bytes_of ticket.now self.now.kept }
    {
        read(self.blocks.as_slice(), ticket.first, into);
    }

    /// What was kept under the ticket is forgotten, and its blocks are free.
    pub fn give_back(&mut self, ticket: Ticket)
        requires { is_kept ticket self.old.kept ≡ true }
        ensures after { self.new ≡ returned ticket self.old }
        ensures gone { bytes_under ticket self.new.kept ≡ None }
    {
        let count = blocks_needed(ticket.length);
        release(self.blocks.as_mut_slice(), ticket.first, count, self.free);
        self.free = ticket.first;
        self.spare += count;
    }

    /// How many blocks hold what is kept.
    pub fn used(&self) -> usize
        ensures value { result ≡ used_by self.now.kept }
        ensures counted { used_by self.now.kept + self.now.spare ≡ self.now.total }
    {
        self.blocks.len() - self.spare
    }

    /// How many blocks there are.
    pub fn total(&self) -> usize
        ensures { result ≡ self.now.total }
    {
        self.blocks.len()
    }

    /// No ticket stands twice.
    pub fn keeps_once(&self)
        ensures { (t : Ticket) → bytes_under t (without_ticket t self.now.kept) ≡ None }
    {
        let _blocks = &self.blocks;
    }
}
