ghost use Rattle.std.specs.Prelude.{◌≡◌, [], min, IfOk};
ghost use Rattle.fk_tree.specs.Tree.{root_node, stat_of, top, with_names};

use fk_base::{Bytes, Names, NoMemory};
use std::alloc::Global;

/// What is known of a node without its data, as ZooKeeper's `Stat`.
#[derive(Clone, Copy, Debug, PartialEq, Eq)]
pub struct Stat {
    /// The transaction that created the node.
    pub czxid: u64,
    /// The last transaction that changed its data.
    pub mzxid: u64,
    /// The last transaction that changed its children.
    pub pzxid: u64,
    pub ctime: u64,
    pub mtime: u64,
    pub version: u32,
    pub cversion: u32,
    /// Always 0, since this profile has no access control.
    pub aversion: u32,
    /// The session that owns an ephemeral node, else 0.
    pub owner: u32,
    /// How many bytes of data the node has.
    pub length: u32,
    pub children: u32,
}

/// A node of the tree, with its data and the names of its children.
#[derive(Drop)]
pub struct Node {
    pub bytes: Bytes,
    pub czxid: u64,
    pub mzxid: u64,
    pub pzxid: u64,
    pub ctime: u64,
    pub mtime: u64,
    pub version: u32,
    pub cversion: u32,
    /// How many children were ever created under it.
    pub made: u32,
    /// The session that owns an ephemeral node, else 0.
    pub owner: u32,
    /// The names of its children, sorted by their bytes.
    pub names: Names,
}

impl Node {
    /// The root as it starts: no data, no child and all numbers 0.
    pub fn root(alloc: Global) -> Node
        ensures { result ≡ with_names [] root_node }
    {
        Node {
            bytes: Bytes::new(alloc),
            czxid: 0,
            mzxid: 0,
            pzxid: 0,
            ctime: 0,
            mtime: 0,
            version: 0,
            cversion: 0,
            made: 0,
            owner: 0,
            names: Names::new(alloc),
        }
    }

    pub fn stat(&self) -> Stat
        ensures { result ≡ stat_of self.now }
    {
        Stat {
            czxid: self.czxid,
            mzxid: self.mzxid,
            pzxid: self.pzxid,
            ctime: self.ctime,
            mtime: self.mtime,
            version: self.version,
            cversion: self.cversion,
            aversion: 0,
            owner: self.owner,
            length: shown(self.bytes.as_slice().len()),
            children: shown(self.names.as_slice().len()),
        }
    }

    pub fn copy(&self) -> Result<Node, NoMemory>
        ensures { IfOk result (λ n. n ≡ self.now) }
    {
        Ok(Node {
            bytes: self.bytes.copy()?,
            czxid: self.czxid,
            mzxid: self.mzxid,
            pzxid: self.pzxid,
            ctime: self.ctime,
            mtime: self.mtime,
            version: self.version,
            cversion: self.cversion,
            made: self.made,
            owner: self.owner,
            names: self.names.copy()?,
        })
    }
}

// a length as a stat shows it
fn shown(count: usize) -> u32
    ensures { result ≡ min count top }
{
    u32::try_from(count).unwrap_or(u32::MAX)
}

/// A copy of a node, where there is one.
pub fn copy_node(node: &Option<Node>) -> Result<Option<Node>, NoMemory>
    ensures { IfOk result (λ n. n ≡ node.now) }
{
    match node {
        None => Ok(None),
        Some(node) => Ok(Some(node.copy()?)),
    }
}
