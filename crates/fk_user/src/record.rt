//! The record of a path.

ghost use Rattle.std.specs.Prelude.{◌≡◌, true, OnOk, OnErr};
ghost use Rattle.fk_base.specs.Path.{name_cmp};
ghost use Rattle.fk_tree.specs.Edit.{edit};
ghost use Rattle.fk_tree.specs.Rows.{names_of};
ghost use Rattle.fk_tree.specs.Sorted.{rises};
ghost use Rattle.fk_user.specs.Meaning.{root_record};

use fk_base::NoMemory;
use fk_tree::{Edit, Node, edit_sorted};
use std::alloc::Global;

/// The node of a path, and the transaction that it stands at.
#[derive(Drop)]
pub struct UserRecord {
    pub node: Option<Node>,
    pub stamp: u64,
}

/// The root's record as it starts: no data, no child and all numbers 0.
pub fn root_record(alloc: Global) -> UserRecord
    ensures { result ≡ root_record }
{
    UserRecord {
        node: Some(Node::root(alloc)),
        stamp: 0,
    }
}

/// Makes one edit of a record's node, whose child names rise.
pub fn edit_record(
    kept: &mut UserRecord,
    tx: u64,
    moment: u64,
    change: &Edit,
) -> Result<(), NoMemory>
    requires { rises name_cmp (names_of kept.old.node) ≡ true }
    ensures ok { OnOk result (kept.new ≡ record { node = edit tx moment change.now.what kept.old.node; stamp = tx }) }
    ensures err { OnErr result (kept.new ≡ kept.old) }
{
    edit_sorted(&mut kept.node, change, tx, moment)?;
    kept.stamp = tx;
    Ok(())
}
