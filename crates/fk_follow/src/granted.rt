//! The locks that a follower was granted, with what its request reads of their records.

ghost use Rattle.std.specs.Prelude.{◌≡◌, MatchOption, None, Some};
ghost use Rattle.fk_spec.specs.Follower.{greatest_last, node_in};
ghost use Rattle.fk_follow.specs.Meaning.{own_moment};
ghost use Rattle.fk_follow.specs.Standing.{grants_of, owns_of};

use fk_base::{NoMemory, Path, Paths};
use fk_tree::Node;
use std::alloc::Global;

/// A lock that was granted, and what its record showed then.
#[derive(Drop)]
pub struct Granted {
    pub path: Path,
    /// What the follower's request reads of the node.
    pub node: Option<Node>,
    /// The last transaction that changed the node.
    pub last: u64,
    /// When it was granted.
    pub moment: u64,
}

/// When the lock of a path was granted.
pub fn own_moment(granted: &[Granted], path: &Path) -> u64
    ensures { result ≡ own_moment path.now (owns_of granted.now) 0 }
{
    let mut moment = 0;
    'passing: for lock in granted {
        if lock.path.same(path) {
            moment = lock.moment;
        }
    }
    moment
}

/// The greatest last transaction of the records.
pub fn greatest_last(granted: &[Granted]) -> u64
    ensures { result ≡ greatest_last (grants_of granted.now) }
{
    let mut greatest = 0;
    'comparing: for lock in granted {
        if greatest < lock.last {
            greatest = lock.last;
        }
    }
    greatest
}

/// The node that the record of a path showed; a path that isn't granted shows none.
pub fn node_in<'a>(granted: &'a [Granted], path: &Path) -> Option<&'a Node>
    ensures { let node = node_in (grants_of granted.now) path.now in
        MatchOption result (node ≡ None) (λ n. node ≡ Some n.now) }
{
    'seeking: for lock in granted {
        if lock.path.same(path) {
            return lock.node.as_ref();
        }
    }
    None
}
