//! A block of a region.

ghost use Rattle.std.specs.Prelude.{◌≡◌, ◌≤◌, ◌++◌, drop, length};

/// How many bytes a block has.
pub const BLOCK_SIZE: usize = 256;

/// A block: its bytes, and how its chain goes on.
#[derive(Clone, Copy)]
pub struct Block {
    pub bytes: [u8; BLOCK_SIZE],
    /// The block behind it in its chain.
    pub next: usize,
    /// How many bytes are kept from this block on; 0 where nothing begins here.
    pub held: usize,
}

/// A block at which nothing begins.
pub const NEW_BLOCK: Block = Block {
    bytes: [0; BLOCK_SIZE],
    next: 0,
    held: 0,
};

impl Block {
    /// Writes over the front of the block's bytes.
    pub fn fill(&mut self, bytes: &[u8])
        requires { length bytes.now ≤ 256 }
        ensures { self.new
            ≡ record self.old { bytes = bytes.now ++ drop (length bytes.now) self.old.bytes } }
    {
        self.bytes[..bytes.len()].copy_from_slice(bytes);
    }
}
