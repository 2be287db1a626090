//! The records of paths.

ghost use Rattle.std.specs.Prelude.{◌≡◌, [], ◌∷◌, true, None, Some, IfOk, MatchOption, OnErr, OnOk};
ghost use Rattle.fk_base.specs.Path.{name_cmp};
ghost use Rattle.fk_tree.specs.Rows.{names_of};
ghost use Rattle.fk_tree.specs.Sorted.{rises};
ghost use Rattle.fk_store.specs.Meaning.{root_record};
ghost use Rattle.fk_store.specs.Writes.{grant_record, release_record};
ghost use Rattle.fk_index.specs.Parts.{edited_record, note_record, with_node};
ghost use Rattle.fk_index.specs.Slots.{has_slot, node_of, record_at, IsChanged, KeepSame, KeepsSlots, SameSlots};

use fk_base::{NoMemory, Path};
use fk_store::{Lock, NodeRecord, UNLOCKED};
use fk_tree::{Edit, Node, edit_sorted};
use std::alloc::Global;
use std::collections::BTreeMap;

/// The record of each path; a path without a record may keep its place.
pub type Slots = BTreeMap<Path, Option<NodeRecord>>;

/// The root's record alone, as it starts: no data, no child and all numbers 0; never locked.
pub fn root_slots(alloc: Global) -> Result<Slots, NoMemory>
    ensures { IfOk result (λ slots. slots.entries ≡ ([], Some root_record) ∷ []) }
{
    let mut slots = BTreeMap::new(alloc);
    slots.insert(Path::root(alloc), Some(root_record(alloc)))?;
    Ok(slots)
}

fn root_record(alloc: Global) -> NodeRecord
    ensures { result ≡ root_record }
{
    NodeRecord {
        node: Some(Node::root(alloc)),
        lock: UNLOCKED,
        last: 0,
    }
}

pub fn record_at<'a>(slots: &'a Slots, path: &Path) -> Option<&'a NodeRecord>
    ensures { MatchOption result (record_at slots.now path.now ≡ None)
        (λ r. record_at slots.now path.now ≡ Some r.now) }
{
    match slots.get(path) {
        None => None,
        Some(kept) => kept.as_ref(),
    }
}

/// Sees that a path has a place.
#[tactic(auto, using(crate::proofs::Finding::none_put, crate::proofs::Finding::slots_put))]
pub fn add_slot(slots: &mut Slots, path: &Path) -> Result<(), NoMemory>
    ensures slot { OnOk result (has_slot slots.new path.now ≡ true) }
    ensures slots { KeepsSlots slots.old slots.new }
    ensures same { KeepSame slots.old slots.new }
{
    if slots.contains_key(path) {
        return Ok(());
    }
    slots.insert(path.copy()?, None)?;
    Ok(())
}

fn grant_in(kept: &mut Option<NodeRecord>, inv: u64, moment: u64)
    ensures { kept.new ≡ grant_record inv moment kept.old }
{
    let lock = Lock {
        inv,
        moment,
        held: true,
    };
    match kept {
        Some(kept) => kept.lock = lock,
        None => {
            *kept = Some(NodeRecord {
                node: None,
                lock,
                last: 0,
            });
        }
    }
}

fn release_in(kept: &mut Option<NodeRecord>)
    ensures { kept.new ≡ release_record kept.old }
{
    if let Some(kept) = kept {
        kept.lock.held = false;
    }
}

fn note_in(kept: &mut Option<NodeRecord>, tx: u64)
    ensures { kept.new ≡ note_record tx kept.old }
{
    match kept {
        Some(kept) => kept.last = tx,
        None => {
            *kept = Some(NodeRecord {
                node: None,
                lock: UNLOCKED,
                last: tx,
            });
        }
    }
}

fn put_in(kept: &mut Option<NodeRecord>, node: Option<Node>)
    ensures { kept.new ≡ with_node node kept.old }
{
    if let Some(kept) = kept {
        kept.node = node;
    }
}

fn edit_in(
    kept: &mut Option<NodeRecord>,
    change: &Edit,
    tx: u64,
    moment: u64,
) -> Result<(), NoMemory>
    requires { rises name_cmp (names_of (node_of kept.old)) ≡ true }
    ensures ok { OnOk result (kept.new ≡ edited_record tx moment change.now.what kept.old) }
    ensures err { OnErr result (kept.new ≡ kept.old) }
{
    match kept {
        None => Ok(()),
        Some(kept) => edit_sorted(&mut kept.node, change, tx, moment),
    }
}

/// Edits the node of a path's record in place.
pub fn edit_node(slots: &mut Slots, change: &Edit, tx: u64, moment: u64) -> Result<(), NoMemory>
    requires { rises name_cmp (names_of (node_of (record_at slots.old change.now.path))) ≡ true }
    ensures ok { OnOk result (IsChanged (edited_record tx moment change.now.what)
        slots.old slots.new change.now.path) }
    ensures err { OnErr result (KeepSame slots.old slots.new) }
    ensures slots { SameSlots slots.old slots.new }
{
    match slots.get_mut(&change.path) {
        None => Ok(()),
        Some(kept) => edit_in(kept, change, tx, moment),
    }
}

/// Grants the lock of a path that has a place.
pub fn grant(slots: &mut Slots, path: &Path, inv: u64, moment: u64)
    requires { has_slot slots.old path.now ≡ true }
    ensures records { IsChanged (grant_record inv moment) slots.old slots.new path.now }
    ensures slots { SameSlots slots.old slots.new }
{
    if let Some(kept) = slots.get_mut(path) {
        grant_in(kept, inv, moment);
    }
}

/// The lock of a path is no longer held.
pub fn release(slots: &mut Slots, path: &Path)
    ensures records { IsChanged release_record slots.old slots.new path.now }
    ensures slots { SameSlots slots.old slots.new }
{
    match slots.get_mut(path) {
        None => {}
        Some(kept) => release_in(kept),
    }
}

/// Notes the last transaction of a path that has a place.
pub fn note(slots: &mut Slots, path: &Path, tx: u64)
    requires { has_slot slots.old path.now ≡ true }
    ensures records { IsChanged (note_record tx) slots.old slots.new path.now }
    ensures slots { SameSlots slots.old slots.new }
{
    if let Some(kept) = slots.get_mut(path) {
        note_in(kept, tx);
    }
}

/// Puts a node, or none, in place of that of a path's record.
pub fn put_node(slots: &mut Slots, path: &Path, node: Option<Node>)
    ensures { IsChanged (with_node node) slots.old slots.new path.now }
{
    match slots.get_mut(path) {
        None => {}
        Some(kept) => put_in(kept, node),
    }
}
