ghost use Rattle.std.specs.Prelude.{◌≡◌, IfOk};

use crate::lock::Lock;
use fk_base::NoMemory;
use fk_tree::{Node, copy_node};

/// What a table keeps of a path.
#[derive(Drop)]
pub struct NodeRecord {
    pub node: Option<Node>,
    pub lock: Lock,
    /// The last transaction that changed the node.
    pub last: u64,
}

impl NodeRecord {
    pub fn copy(&self) -> Result<NodeRecord, NoMemory>
        ensures { IfOk result (λ r. r ≡ self.now) }
    {
        Ok(NodeRecord {
            node: copy_node(&self.node)?,
            lock: self.lock,
            last: self.last,
        })
    }
}
