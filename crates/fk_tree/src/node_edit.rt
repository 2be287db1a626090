//! One edit of one node.

ghost use Rattle.std.specs.Prelude.{◌≡◌, [], true, IfOk, OnOk, OnErr};
ghost use Rattle.fk_base.specs.Path.{name_cmp};
ghost use Rattle.fk_tree.specs.Rows.{names_of};
ghost use Rattle.fk_tree.specs.Edit.{edit, with_bytes, with_child, without_child};
ghost use Rattle.fk_tree.specs.Sorted.{has_name, rises};
ghost use Rattle.fk_tree.specs.Tree.{fresh, map_some, up, with_names};

use crate::child_names::{add_name, drop_name, place_of, seek};
use crate::edit::{Edit, What};
use crate::node::Node;
use fk_base::{Bytes, Names, NoMemory, Text};

/// Makes one edit of one node. `Make` puts its node in place of what is there; any other edit of a
/// missing node changes nothing.
pub fn edit_node(
    node: &mut Option<Node>,
    change: &Edit,
    tx: u64,
    moment: u64,
) -> Result<(), NoMemory>
    ensures ok { OnOk result (node.new ≡ edit tx moment change.now.what node.old) }
    ensures err { OnErr result (node.new ≡ node.old) }
{
    match &change.what {
        What::Make { bytes, owner } => {
            *node = Some(fresh_node(bytes, *owner, tx, moment)?);
            Ok(())
        }
        What::Replace(bytes) => replace(node, bytes, tx, moment),
        What::Remove => {
            *node = None;
            Ok(())
        }
        What::AddName(name) => add_child(node, name, tx),
        What::DropName(name) => {
            drop_child(node, name, tx);
            Ok(())
        }
    }
}

/// The same of a node whose child names rise, in logarithmic time but for what an insertion into a list
/// moves.
#[tactic(auto, using(crate::proofs::Editing::added_rise, crate::proofs::Keeping::dropped_rise))]
pub fn edit_sorted(
    node: &mut Option<Node>,
    change: &Edit,
    tx: u64,
    moment: u64,
) -> Result<(), NoMemory>
    requires { rises name_cmp (names_of node.old) ≡ true }
    ensures ok { OnOk result (node.new ≡ edit tx moment change.now.what node.old) }
    ensures err { OnErr result (node.new ≡ node.old) }
    ensures rising { rises name_cmp (names_of node.new) ≡ true }
{
    match &change.what {
        What::AddName(name) => {
            add_sorted(node, name, tx)?;
            Ok(())
        }
        What::DropName(name) => {
            drop_sorted(node, name, tx);
            Ok(())
        }
        What::Make { .. } => edit_node(node, change, tx, moment),
        What::Replace(_) => edit_node(node, change, tx, moment),
        What::Remove => edit_node(node, change, tx, moment),
    }
}

pub fn fresh_node(bytes: &Bytes, owner: u32, tx: u64, moment: u64) -> Result<Node, NoMemory>
    ensures { IfOk result (λ n. n ≡ with_names [] (fresh bytes.now owner tx moment)) }
{
    Ok(Node {
        bytes: bytes.copy()?,
        czxid: tx,
        mzxid: tx,
        pzxid: tx,
        ctime: moment,
        mtime: moment,
        version: 0,
        cversion: 0,
        made: 0,
        owner,
        names: Names::new(bytes.allocator()),
    })
}

pub fn replace(node: &mut Option<Node>, bytes: &Bytes, tx: u64, moment: u64) -> Result<(), NoMemory>
    ensures ok { OnOk result (node.new ≡ map_some (with_bytes bytes.now tx moment) node.old) }
    ensures err { OnErr result (node.new ≡ node.old) }
{
    let Some(node) = node else {
        return Ok(());
    };
    node.bytes = bytes.copy()?;
    node.version = up(node.version);
    node.mzxid = tx;
    node.mtime = moment;
    Ok(())
}

fn add_child(node: &mut Option<Node>, name: &Text, tx: u64) -> Result<(), NoMemory>
    ensures ok { OnOk result (node.new ≡ map_some (with_child name.now tx) node.old) }
    ensures err { OnErr result (node.new ≡ node.old) }
{
    let Some(node) = node else {
        return Ok(());
    };
    if is_child(node, name) {
        return Ok(());
    }
    add_name(&mut node.names, name)?;
    node.made = up(node.made);
    note_child(node, tx);
    Ok(())
}

fn drop_child(node: &mut Option<Node>, name: &Text, tx: u64)
    ensures { node.new ≡ map_some (without_child name.now tx) node.old }
{
    let Some(node) = node else {
        return;
    };
    if !is_child(node, name) {
        return;
    }
    drop_name(&mut node.names, name);
    note_child(node, tx);
}

/// A child came to a node whose child names rise.
#[tactic(auto, using(crate::proofs::Sorting::put_at_place))]
pub fn add_sorted(node: &mut Option<Node>, name: &Text, tx: u64) -> Result<(), NoMemory>
    requires { rises name_cmp (names_of node.old) ≡ true }
    ensures ok { OnOk result (node.new ≡ map_some (with_child name.now tx) node.old) }
    ensures err { OnErr result (node.new ≡ node.old) }
{
    let Some(node) = node else {
        return Ok(());
    };
    let Err(place) = seek(node.names.as_slice(), name) else {
        return Ok(());
    };
    node.names.insert(place, name.copy()?)?;
    node.made = up(node.made);
    note_child(node, tx);
    Ok(())
}

/// A child went from a node whose child names rise.
#[tactic(auto, using(crate::proofs::Seeking::removed_at_place))]
pub fn drop_sorted(node: &mut Option<Node>, name: &Text, tx: u64)
    requires { rises name_cmp (names_of node.old) ≡ true }
    ensures { node.new ≡ map_some (without_child name.now tx) node.old }
{
    let Some(node) = node else {
        return;
    };
    if let Ok(place) = seek(node.names.as_slice(), name) {
        node.names.remove(place);
        note_child(node, tx);
    }
}

// a child came or went
fn note_child(node: &mut Node, tx: u64)
    ensures { node.new ≡ record node.old { cversion = up node.old.cversion; pzxid = tx } }
{
    node.cversion = up(node.cversion);
    node.pzxid = tx;
}

#[tactic(auto, using(crate::proofs::Sorting::found_where_there))]
fn is_child(node: &Node, name: &Text) -> bool
    ensures { result ≡ has_name name.now node.now.names }
{
    place_of(node.names.as_slice(), name).is_some()
}

/// One more, up to the greatest number of 32 bits.
pub fn up(count: u32) -> u32
    ensures { result ≡ up count }
{
    count.saturating_add(1)
}
