//! Nodes as they will be after the writes of a transaction.

ghost use Rattle.std.specs.Prelude.{◌≡◌, true, IfOk, OnOk};
ghost use Rattle.fk_base.specs.Path.{name_cmp};
ghost use Rattle.fk_tree.specs.Rows.{names_of};
ghost use Rattle.fk_tree.specs.Sorted.{rises};
ghost use Rattle.fk_index.specs.Drafts.{drafted, is_drafted, node_over, AreEditedAlike, AreMadeOver, AreRisingOver, IsEdited, KeepOthers};
ghost use Rattle.fk_index.specs.Parts.{edit_after};
ghost use Rattle.fk_index.specs.Slots.{node_of, record_at};

use crate::slots::{Slots, record_at};
use fk_base::{NoMemory, Path};
use fk_tree::{Edit, Node, What, copy_node, edit_sorted};
use std::collections::BTreeMap;

/// The nodes that stand over those of the table, by their paths.
pub type Drafts = BTreeMap<Path, Option<Node>>;

/// An edit as a transaction makes it.
#[derive(Clone, Copy)]
pub struct Step<'a> {
    pub change: &'a Edit,
    pub tx: u64,
    pub moment: u64,
}

fn copy_of(slots: &Slots, path: &Path) -> Result<Option<Node>, NoMemory>
    ensures { IfOk result (λ o. o ≡ node_of (record_at slots.now path.now)) }
{
    match record_at(slots, path) {
        None => Ok(None),
        Some(kept) => copy_node(&kept.node),
    }
}

// a node of which the edit makes the same as of the table's; what it doesn't look at isn't copied
fn base_of(slots: &Slots, change: &Edit) -> Result<Option<Node>, NoMemory>
    requires { rises name_cmp (names_of (node_of (record_at slots.now change.now.path))) ≡ true }
    ensures edited { IfOk result (λ o. AreEditedAlike change.now.what o
        (node_of (record_at slots.now change.now.path))) }
    ensures rising { IfOk result (λ o. rises name_cmp (names_of o) ≡ true) }
{
    match &change.what {
        What::Make { .. } => Ok(None),
        What::Remove => Ok(None),
        What::Replace(_) => copy_of(slots, &change.path),
        What::AddName(_) => copy_of(slots, &change.path),
        What::DropName(_) => copy_of(slots, &change.path),
    }
}

// sees that the draft has a node for an edit
fn stage(drafts: &mut Drafts, slots: &Slots, change: &Edit) -> Result<(), NoMemory>
    requires { AreRisingOver drafts.old slots.now }
    ensures there { OnOk result (is_drafted drafts.new change.now.path ≡ true) }
    ensures edited { OnOk result (AreEditedAlike change.now.what
        (drafted drafts.new change.now.path) (node_over drafts.old slots.now change.now.path)) }
    ensures rising { OnOk result (rises name_cmp
        (names_of (drafted drafts.new change.now.path)) ≡ true) }
    ensures others { OnOk result (KeepOthers drafts.old drafts.new slots.now change.now.path) }
{
    if drafts.contains_key(&change.path) {
        return Ok(());
    }
    let node = base_of(slots, change)?;
    drafts.insert(change.path.copy()?, node)?;
    Ok(())
}

fn edit_draft(drafts: &mut Drafts, change: &Edit, tx: u64, moment: u64) -> Result<(), NoMemory>
    requires there { is_drafted drafts.old change.now.path ≡ true }
    requires rising { rises name_cmp (names_of (drafted drafts.old change.now.path)) ≡ true }
    ensures { OnOk result (IsEdited tx moment change.now drafts.old drafts.new) }
{
    match drafts.get_mut(&change.path) {
        None => Ok(()),
        Some(node) => edit_sorted(node, change, tx, moment),
    }
}

/// Makes an edit in the draft.
pub fn draft_edit(
    drafts: &mut Drafts,
    slots: &Slots,
    change: &Edit,
    tx: u64,
    moment: u64,
) -> Result<(), NoMemory>
    requires { AreRisingOver drafts.old slots.now }
    ensures { OnOk result (AreMadeOver (edit_after tx moment change.now) drafts.old drafts.new
        slots.now) }
{
    stage(drafts, slots, change)?;
    edit_draft(drafts, change, tx, moment)
}
