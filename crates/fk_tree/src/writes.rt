//! Edits written to the nodes of a tree. Each call takes all memory before it changes a node.

ghost use Rattle.std.specs.Prelude.{◌≡◌, ◌∷◌, ◌<◌, ℕ, false, true, None, IfOk, OnErr, OnOk, if◌then◌else◌};
ghost use Rattle.fk_base.specs.Path.{PathNames, is_root, last_name, parent, same_path};
ghost use Rattle.fk_tree.specs.Edit.{closes, create_edits, edit, edited, effects, with_child};
ghost use Rattle.fk_tree.specs.Tree.{map_some};
ghost use Rattle.fk_tree.specs.Rows.{are_drops, are_noted, changes_by, changes_have_rows, has_row, have_rows, is_drop, is_edit_noted, row_node, written, AreEdited, AreNoted, AreRising, IsNew, KeepSame, KeepsNotes, StaysNoted};

use crate::applied::Applied;
use crate::edit::{Edit, What};
use crate::effect_list::{owner, parent_and_name};
use crate::node::Node;
use crate::node_edit::{edit_node, fresh_node};
use crate::owners::{Owners, forget, note};
use crate::request::Request;
use crate::slots::{
    Changed, Slots, add_name, add_node, add_slot, drop_name, node_at, put, remove, set_bytes,
};
use fk_base::{Bytes, NoMemory, Path};
use std::alloc::Global;

/// A new node at a free path, and its name in the parent.
#[tactic(auto, using(crate::proofs::Creating::made_rows, crate::proofs::Creating::child_rows, crate::proofs::Creating::rising_with, crate::proofs::Creating::undone))]
pub fn create(
    slots: &mut Slots,
    path: &Path,
    bytes: &Bytes,
    owner: u32,
    tx: u64,
    moment: u64,
) -> Result<(), NoMemory>
    requires rising { AreRising slots.old.entries }
    requires free { row_node path.now slots.old.entries ≡ None }
    ensures ok { OnOk result (AreEdited tx moment (create_edits path.now bytes.now owner) slots.old.entries slots.new.entries) }
    ensures err { OnErr result (KeepSame slots.old.entries slots.new.entries) }
{
    let node = fresh_node(bytes, owner, tx, moment)?;
    add_node(slots, path, node)?;
    match name_in_parent(slots, path, tx) {
        Ok(()) => Ok(()),
        Err(NoMemory) => {
            remove(slots, path);
            Err(NoMemory)
        }
    }
}

// puts the name of a path to its parent; the root has none
fn name_in_parent(slots: &mut Slots, path: &Path, tx: u64) -> Result<(), NoMemory>
    requires { AreRising slots.old.entries }
    ensures root { is_root path.now ≡ true → KeepSame slots.old.entries slots.new.entries }
    ensures child { is_root path.now ≡ false → OnOk result ((p : PathNames) → row_node p slots.new.entries ≡ (if same_path p (parent path.now) then map_some (with_child (last_name path.now) tx) (row_node p slots.old.entries) else row_node p slots.old.entries)) }
    ensures err { OnErr result (KeepSame slots.old.entries slots.new.entries) }
    ensures rows { (p : PathNames) → has_row p slots.new.entries ≡ has_row p slots.old.entries }
{
    match parent_and_name(path)? {
        None => Ok(()),
        Some((parent, name)) => add_name(slots, &parent, &name, tx),
    }
}

/// Notes the paths of new nodes as their owners'.
#[tactic(auto, using(crate::proofs::Keeping::noted_step))]
pub fn note_makes(alloc: Global, owners: &mut Owners, edits: &[Edit]) -> Result<(), NoMemory>
    ensures notes { KeepsNotes owners.old owners.new }
    ensures noted { OnOk result (are_noted edits.now owners.new ≡ true) }
{
    'noting: for change in edits {
        note_make(alloc, owners, change)?;
    }
    Ok(())
}

fn note_make(alloc: Global, owners: &mut Owners, change: &Edit) -> Result<(), NoMemory>
    ensures notes { KeepsNotes owners.old owners.new }
    ensures noted { OnOk result (is_edit_noted change.now owners.new ≡ true) }
{
    match &change.what {
        What::Make { owner, .. } if *owner != 0 => note(alloc, owners, *owner, &change.path),
        _ => Ok(()),
    }
}

/// Takes nodes and their names out.
#[tactic(auto, using(crate::proofs::Keeping::drops_at, crate::proofs::Keeping::edited_more))]
pub fn drop_all(slots: &mut Slots, owners: &mut Owners, edits: &[Edit], tx: u64)
    requires drops { are_drops edits.now ≡ true }
    requires rising { AreRising slots.old.entries }
    ensures nodes { (moment : ℕ) → AreEdited tx moment edits.now slots.old.entries slots.new.entries }
    ensures noted { StaysNoted slots.old.entries owners.old slots.new.entries owners.new }
{
    'dropping: for change in edits {
        drop_one(slots, owners, change, tx);
    }
}

#[tactic(auto, using(crate::proofs::Keeping::rising_without))]
fn drop_one(slots: &mut Slots, owners: &mut Owners, change: &Edit, tx: u64)
    requires drops { is_drop change.now.what ≡ true }
    requires rising { AreRising slots.old.entries }
    ensures nodes { (moment : ℕ) (p : PathNames) → row_node p slots.new.entries ≡ (if same_path p change.now.path then edit tx moment change.now.what (row_node p slots.old.entries) else row_node p slots.old.entries) }
    ensures noted { StaysNoted slots.old.entries owners.old slots.new.entries owners.new }
    ensures rising { AreRising slots.new.entries }
{
    match &change.what {
        What::Remove => remove_node(slots, owners, &change.path),
        What::DropName(name) => drop_name(slots, &change.path, name, tx),
        _ => {}
    }
}

fn remove_node(slots: &mut Slots, owners: &mut Owners, path: &Path)
    ensures nodes { (p : PathNames) → row_node p slots.new.entries ≡ (if same_path p path.now then None else row_node p slots.old.entries) }
    ensures noted { StaysNoted slots.old.entries owners.old slots.new.entries owners.new }
{
    let owner = node_at(slots, path).map_or(0, |node| node.owner);
    remove(slots, path);
    if owner != 0 {
        forget(owners, owner, path);
    }
}

// sees that each edited path has a place.
#[tactic(auto, using(crate::proofs::Keeping::have_rows_step))]
fn add_slots(slots: &mut Slots, edits: &[Edit]) -> Result<(), NoMemory>
    ensures rows { OnOk result (have_rows edits.now slots.new.entries ≡ true) }
    ensures same { KeepSame slots.old.entries slots.new.entries }
{
    'adding: for change in edits {
        add_slot(slots, &change.path)?;
    }
    Ok(())
}

/// The node that the edits of its path leave.
#[tactic(auto, using(crate::proofs::Keeping::edited_step))]
pub fn node_after(
    slots: &Slots,
    path: &Path,
    edits: &[Edit],
    tx: u64,
    moment: u64,
) -> Result<Option<Node>, NoMemory>
    ensures { IfOk result (λ o. o ≡ edited tx moment path.now edits.now (row_node path.now slots.now.entries)) }
{
    let mut node = match node_at(slots, path) {
        None => None,
        Some(node) => Some(node.copy()?),
    };
    'editing: for change in edits {
        if path.same(&change.path) {
            edit_node(&mut node, change, tx, moment)?;
        }
    }
    Ok(node)
}

// a change for each edit: the node that the edits leave there.
#[tactic(auto, using(crate::proofs::Keeping::changes_step))]
fn changes_of(
    alloc: Global,
    slots: &Slots,
    edits: &[Edit],
    tx: u64,
    moment: u64,
) -> Result<Vec<Changed>, NoMemory>
    ensures { IfOk result (λ changes. changes.items ≡ changes_by tx moment slots.now.entries edits.now edits.now) }
{
    let mut changes = Vec::new(alloc);
    'editing: for change in edits {
        changes.push(Changed {
            path: change.path.copy()?,
            node: node_after(slots, &change.path, edits, tx, moment)?,
        })?;
    }
    Ok(changes)
}

// puts changed nodes in place of those of their paths.
#[tactic(auto, using(crate::proofs::Keeping::written_last, crate::proofs::Keeping::last_has_row, crate::proofs::Keeping::have_rows_like))]
fn write_changes(slots: &mut Slots, mut changes: Vec<Changed>)
    requires { changes_have_rows changes.items slots.old.entries ≡ true }
    ensures { (p : PathNames) → row_node p slots.new.entries ≡ written p changes.items (row_node p slots.old.entries) }
{
    'writing: while let Some(changed) = changes.pop() {
        let Changed { path, node } = changed;
        put(slots, &path, node);
    }
}

// takes out the places that were left empty
fn tidy(slots: &mut Slots, edits: &[Edit])
    ensures { KeepSame slots.old.entries slots.new.entries }
{
    'tidying: for change in edits {
        tidy_one(slots, &change.path);
    }
}

#[tactic(auto, using(crate::proofs::Keeping::gone_same))]
fn tidy_one(slots: &mut Slots, path: &Path)
    ensures { KeepSame slots.old.entries slots.new.entries }
{
    if node_at(slots, path).is_none() {
        remove(slots, path);
    }
}

/// Makes edits one after another.
#[tactic(auto, using(crate::proofs::Written::edited_have_rows, crate::proofs::Written::written_edits))]
pub fn write_edits(
    alloc: Global,
    slots: &mut Slots,
    edits: &[Edit],
    tx: u64,
    moment: u64,
) -> Result<(), NoMemory>
    ensures ok { OnOk result (AreEdited tx moment edits.now slots.old.entries slots.new.entries) }
    ensures err { OnErr result (KeepSame slots.old.entries slots.new.entries) }
{
    add_slots(slots, edits)?;
    let changes = changes_of(alloc, slots, edits, tx, moment)?;
    write_changes(slots, changes);
    tidy(slots, edits);
    Ok(())
}

/// Writes the edits of an applied request; a close also closes its session.
pub fn write(
    alloc: Global,
    slots: &mut Slots,
    owners: &mut Owners,
    closed: &mut Vec<u32>,
    applied: &Applied,
    edits: &[Edit],
) -> Result<(), NoMemory>
    requires edits { edits.now ≡ effects applied.now }
    requires noted { are_noted edits.now owners.old ≡ true }
    requires rising { AreRising slots.old.entries }
    requires free { IsNew applied.now.request applied.now.name slots.old.entries }
    ensures ok { OnOk result (AreEdited applied.now.tx applied.now.moment (effects applied.now) slots.old.entries slots.new.entries) }
    ensures closed { OnOk result (closed.new.items ≡ (if closes applied.now.request then applied.now.session ∷ closed.old.items else closed.old.items)) }
    ensures err { OnErr result (KeepSame slots.old.entries slots.new.entries) }
    ensures open { OnErr result (closed.new.items ≡ closed.old.items) }
    ensures noted { StaysNoted slots.old.entries owners.old slots.new.entries owners.new }
{
    let (tx, moment) = (applied.tx, applied.moment);
    match &applied.request {
        Request::Create { bytes, eph, .. } => {
            let owner = owner(applied.session, *eph);
            create(slots, &applied.name, bytes, owner, tx, moment)
        }
        Request::Set { path, bytes, .. } => set_bytes(slots, path, bytes, tx, moment),
        Request::Delete { .. } => {
            drop_all(slots, owners, edits, tx);
            Ok(())
        }
        Request::Close { .. } => {
            closed.insert(0, applied.session)?;
            drop_all(slots, owners, edits, tx);
            Ok(())
        }
        Request::Multi(_) => write_edits(alloc, slots, edits, tx, moment),
    }
}
