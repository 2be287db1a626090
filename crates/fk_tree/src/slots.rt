//! The nodes of a tree by their paths.

ghost use Rattle.std.specs.Prelude.{◌≡◌, [], ◌∷◌, ℕ, true, None, Some, IfOk, MatchOption, OnErr, OnOk, if◌then◌else◌};
ghost use Rattle.fk_base.specs.Path.{PathNames, name_cmp, same_path};
ghost use Rattle.fk_tree.specs.Edit.{with_bytes, with_child, without_child};
ghost use Rattle.fk_tree.specs.Rows.{has_row, names_of, row_node, KeepSame, KeepsRows};
ghost use Rattle.fk_tree.specs.Sorted.{rises};
ghost use Rattle.fk_tree.specs.Tree.{map_some, root_node, with_names};

use crate::node::Node;
use crate::node_edit::{add_sorted, drop_sorted, replace};
use fk_base::{Bytes, NoMemory, Path, Text};
use std::alloc::Global;
use std::collections::BTreeMap;

/// What becomes of a path.
#[derive(Drop)]
pub struct Changed {
    pub path: Path,
    pub node: Option<Node>,
}

/// The node of each path; a path without a node may keep its place.
pub type Slots = BTreeMap<Path, Option<Node>>;

/// The place of the root as it starts: no data, no child and all numbers 0.
pub fn root_slots(alloc: Global) -> Result<Slots, NoMemory>
    ensures { IfOk result (λ slots. slots.entries ≡ ([], Some (with_names [] root_node)) ∷ []) }
{
    let mut slots = BTreeMap::new(alloc);
    slots.insert(Path::root(alloc), Some(Node::root(alloc)))?;
    Ok(slots)
}

#[tactic(auto, using(crate::proofs::Looking::node_looked_up))]
pub fn node_at<'a>(slots: &'a Slots, path: &Path) -> Option<&'a Node>
    ensures { MatchOption result (row_node path.now slots.now.entries ≡ None) (λ n. row_node path.now slots.now.entries ≡ Some n.now) }
{
    match slots.get(path) {
        None => None,
        Some(slot) => slot.as_ref(),
    }
}

/// Sees that a path has a place.
#[tactic(auto, using(crate::proofs::Looking::updated_node, crate::proofs::Looking::updated_row, crate::proofs::Looking::row_there, crate::proofs::Looking::none_put, crate::proofs::Looking::rows_put))]
pub fn add_slot(slots: &mut Slots, path: &Path) -> Result<(), NoMemory>
    ensures row { OnOk result (has_row path.now slots.new.entries ≡ true) }
    ensures rows { KeepsRows slots.old.entries slots.new.entries }
    ensures same { KeepSame slots.old.entries slots.new.entries }
{
    if !slots.contains_key(path) {
        slots.insert(path.copy()?, None)?;
    }
    Ok(())
}

/// Puts a node at a path.
#[tactic(auto, using(crate::proofs::Looking::updated_node))]
pub fn add_node(slots: &mut Slots, path: &Path, node: Node) -> Result<(), NoMemory>
    ensures ok { OnOk result ((p : PathNames) → row_node p slots.new.entries ≡ (if same_path p path.now then Some node else row_node p slots.old.entries)) }
    ensures err { OnErr result (KeepSame slots.old.entries slots.new.entries) }
{
    slots.insert(path.copy()?, Some(node))?;
    Ok(())
}

/// Puts a node, or none, in place of what is there.
#[tactic(auto, using(crate::proofs::Looking::updated_node, crate::proofs::Looking::updated_row, crate::proofs::Looking::row_there))]
pub fn put(slots: &mut Slots, path: &Path, node: Option<Node>)
    requires { has_row path.now slots.old.entries ≡ true }
    ensures nodes { (p : PathNames) → row_node p slots.new.entries ≡ (if same_path p path.now then node else row_node p slots.old.entries) }
    ensures rows { (p : PathNames) → has_row p slots.new.entries ≡ has_row p slots.old.entries }
{
    if let Some(slot) = slots.get_mut(path) {
        *slot = node;
    }
}

/// Takes out what is there.
#[tactic(auto, using(crate::proofs::Looking::updated_node))]
pub fn remove(slots: &mut Slots, path: &Path)
    ensures nodes { (p : PathNames) → row_node p slots.new.entries ≡ (if same_path p path.now then None else row_node p slots.old.entries) }
{
    slots.remove(path);
}

/// A child came to the node of a path, where there is one.
pub fn add_name(slots: &mut Slots, path: &Path, name: &Text, tx: u64) -> Result<(), NoMemory>
    requires { rises name_cmp (names_of (row_node path.now slots.old.entries)) ≡ true }
    ensures ok { OnOk result ((p : PathNames) → row_node p slots.new.entries ≡ (if same_path p path.now then map_some (with_child name.now tx) (row_node p slots.old.entries) else row_node p slots.old.entries)) }
    ensures err { OnErr result (KeepSame slots.old.entries slots.new.entries) }
    ensures rows { (p : PathNames) → has_row p slots.new.entries ≡ has_row p slots.old.entries }
{
    match slots.get_mut(path) {
        None => Ok(()),
        Some(slot) => add_sorted(slot, name, tx),
    }
}

/// A child went from the node of a path, where there is one.
pub fn drop_name(slots: &mut Slots, path: &Path, name: &Text, tx: u64)
    requires { rises name_cmp (names_of (row_node path.now slots.old.entries)) ≡ true }
    ensures nodes { (p : PathNames) → row_node p slots.new.entries ≡ (if same_path p path.now then map_some (without_child name.now tx) (row_node p slots.old.entries) else row_node p slots.old.entries) }
{
    match slots.get_mut(path) {
        None => {}
        Some(slot) => drop_sorted(slot, name, tx),
    }
}

/// A new value of the node of a path, where there is one.
pub fn set_bytes(
    slots: &mut Slots,
    path: &Path,
    bytes: &Bytes,
    tx: u64,
    moment: u64,
) -> Result<(), NoMemory>
    ensures ok { OnOk result ((p : PathNames) → row_node p slots.new.entries ≡ (if same_path p path.now then map_some (with_bytes bytes.now tx moment) (row_node p slots.old.entries) else row_node p slots.old.entries)) }
    ensures err { OnErr result (KeepSame slots.old.entries slots.new.entries) }
{
    match slots.get_mut(path) {
        None => Ok(()),
        Some(slot) => replace(slot, bytes, tx, moment),
    }
}
