//! Chains of blocks: walking along one, and reading and writing its bytes.

ghost use Rattle.std.specs.Prelude.{◌≡◌, ◌<◌, ◌≤◌, length};
ghost use Rattle.fk_region.specs.Blocks.{bytes_at, bytes_in, next_in, steps};
ghost use Rattle.fk_region.specs.Chains.{AreLinked, AreWhole, HasChain};
ghost use Rattle.fk_region.specs.Changes.{AreKept, AreReleased, AreWritten};
ghost use Rattle.fk_region.specs.Kept.{blocks_of};

use crate::block::{BLOCK_SIZE, Block};

// the block that so many steps lead to
fn walk(blocks: &[Block], from: usize, count: usize) -> usize
    requires { HasChain blocks.now from count }
    ensures { result ≡ steps (next_in blocks.now) count from }
{
    let mut at = from;
    'walking: for _step in 0..count {
        at = blocks[at].next;
    }
    at
}

// writes bytes over the blocks of a chain, as many as they need, and gives the block behind these
fn write(blocks: &mut [Block], first: usize, bytes: &[u8]) -> usize
    requires { HasChain blocks.old first (blocks_of (length bytes.now)) }
    ensures behind { result ≡ steps (next_in blocks.old) (blocks_of (length bytes.now)) first }
    ensures after { AreWritten blocks.old first bytes.now blocks.new }
{
    let mut at = first;
    let mut rest = bytes;
    'writing: while !rest.is_empty() {
        let (front, others) = rest.split_at(BLOCK_SIZE.min(rest.len()));
        blocks[at].fill(front);
        at = blocks[at].next;
        rest = others;
    }
    at
}

/// Keeps bytes in a chain of blocks, as many as they need, and gives the block behind these.
pub fn keep(blocks: &mut [Block], first: usize, bytes: &[u8]) -> usize
    requires some { 0 < length bytes.now }
    requires inside { HasChain blocks.old first (blocks_of (length bytes.now)) }
    ensures behind { result ≡ steps (next_in blocks.old) (blocks_of (length bytes.now)) first }
    ensures after { AreKept blocks.old first bytes.now blocks.new }
{
    let behind = write(blocks, first, bytes);
    blocks[first].held = bytes.len();
    behind
}

/// Keeps nothing at a block any more, and puts so many blocks of its chain before the first free one.
pub fn release(blocks: &mut [Block], first: usize, count: usize, free: usize)
    requires some { 0 < count }
    requires inside { HasChain blocks.old first count }
    ensures { AreReleased blocks.old first count free blocks.new }
{
    let last = walk(blocks, first, count - 1);
    blocks[last].next = free;
    blocks[first].held = 0;
}

/// Reads the bytes of a chain, from the first of a block on.
pub fn read(blocks: &[Block], first: usize, into: &mut [u8])
    requires inside { HasChain blocks.now first (blocks_of (length into.old)) }
    requires whole { AreWhole blocks.now }
    ensures { into.new
        ≡ bytes_at (next_in blocks.now) (bytes_in blocks.now) first (length into.old) }
{
    let mut at = first;
    let mut done = 0;
    'reading: while done < into.len() {
        let count = BLOCK_SIZE.min(into.len() - done);
        into[done..done + count].copy_from_slice(&blocks[at].bytes[..count]);
        done += count;
        at = blocks[at].next;
    }
}

/// Puts the blocks from one on before the free ones, and gives the one that is then the first of these.
pub fn link(blocks: &mut [Block], from: usize, free: usize) -> usize
    requires { from ≤ length blocks.old }
    ensures { AreLinked blocks.old from free blocks.new (length blocks.old) result }
{
    let mut first = free;
    'linking: for at in from..blocks.len() {
        blocks[at].next = first;
        first = at;
    }
    first
}
