//! What takes memory of a transaction's writes, before the first of them is made.

ghost use Rattle.std.specs.Prelude.{◌≡◌, true, IfOk, MatchOption, OnErr, OnOk};
ghost use Rattle.fk_index.specs.Drafts.{node_over, AreMadeOver, AreRisingOver, Grows, IsReady};
ghost use Rattle.fk_index.specs.Owners.{has_place_for, AreOwned, KeepMarks, KeepsPlaces};
ghost use Rattle.fk_index.specs.Parts.{has_slot_of, node_after};
ghost use Rattle.fk_index.specs.Slots.{AreChanged, AreRising, KeepSame, KeepsSlots, SameSlots};
ghost use Rattle.fk_index.specs.Waiting.{keeps_owner, may_wait, pended, pended_record, step_after};
ghost use Rattle.fk_index.specs.Waiting.{Begins, Edits, EditsNone, IsPrepared, Stands};

use crate::drafts::{Drafts, Step, draft_edit};
use crate::owners::{Owners, add_place};
use crate::slots::{Slots, add_slot, edit_node};
use fk_base::NoMemory;
use fk_store::Write;
use fk_tree::{Edit, What};
use std::alloc::Global;
use std::collections::BTreeMap;

fn keeps_owner(change: &Edit) -> bool
    ensures { result ≡ keeps_owner change.now.what }
{
    match &change.what {
        What::Make { .. } => false,
        What::Replace(_) => true,
        What::Remove => false,
        What::AddName(_) => true,
        What::DropName(_) => true,
    }
}

// sees that the owner of a new node has a place for its path
fn place_made(alloc: Global, owners: &mut Owners, change: &Edit) -> Result<(), NoMemory>
    ensures place { OnOk result (has_place_for owners.new change.now.path
        change.now.what ≡ true) }
    ensures marks { KeepMarks owners.old owners.new }
    ensures places { KeepsPlaces owners.old owners.new }
{
    match &change.what {
        What::Make { owner, .. } if *owner != 0 => add_place(alloc, owners, *owner, &change.path),
        _ => Ok(()),
    }
}

// makes an edit that waits in the draft
fn flush(drafts: &mut Drafts, slots: &Slots, waiting: Option<Step<'_>>) -> Result<(), NoMemory>
    requires { AreRisingOver drafts.old slots.now }
    ensures { OnOk result (AreMadeOver (pended waiting.entry) drafts.old drafts.new slots.now) }
{
    match waiting {
        None => Ok(()),
        Some(step) => draft_edit(drafts, slots, step.change, step.tx, step.moment),
    }
}

// makes an edit in the draft, or lets it wait
fn begin<'a>(
    drafts: &mut Drafts,
    slots: &Slots,
    step: Step<'a>,
) -> Result<Option<Step<'a>>, NoMemory>
    requires { AreRisingOver drafts.old slots.now }
    ensures { IfOk result (λ w. Begins drafts.old drafts.new slots.now step.entry w) }
{
    if keeps_owner(step.change) && !drafts.contains_key(&step.change.path) {
        return Ok(Some(step));
    }
    draft_edit(drafts, slots, step.change, step.tx, step.moment)?;
    Ok(None)
}

// takes what an edit needs, after the one that waits
fn prepare_change<'a>(
    alloc: Global,
    drafts: &mut Drafts,
    slots: &Slots,
    owners: &mut Owners,
    waiting: Option<Step<'a>>,
    step: Step<'a>,
) -> Result<Option<Step<'a>>, NoMemory>
    requires ready { IsReady drafts.old slots.now owners.old }
    requires lone { may_wait drafts.old waiting ≡ true }
    ensures marks { KeepMarks owners.old owners.new }
    ensures stands { IfOk result (λ w. Stands (λ p. step_after step.entry p
        (pended waiting.entry p (node_over drafts.old slots.now p))) w drafts.new slots.now
        owners.new) }
{
    place_made(alloc, owners, step.change)?;
    flush(drafts, slots, waiting)?;
    begin(drafts, slots, step)
}

// sees that a path that is granted or changed has a place
fn place_of(slots: &mut Slots, write: &Write) -> Result<(), NoMemory>
    ensures place { OnOk result (has_slot_of slots.new write.now ≡ true) }
    ensures slots { KeepsSlots slots.old slots.new }
    ensures same { KeepSame slots.old slots.new }
{
    match write {
        Write::Grant { path, .. } => add_slot(slots, path),
        Write::Change { change, .. } => add_slot(slots, &change.path),
        Write::Release(_) => Ok(()),
        Write::Settle { .. } => Ok(()),
        Write::CloseSession(_) => Ok(()),
        Write::AddPending { .. } => Ok(()),
        Write::PopPending { .. } => Ok(()),
        Write::Done(_) => Ok(()),
        Write::Ping { .. } => Ok(()),
        Write::Pong { .. } => Ok(()),
    }
}

// the edit of a write, where it has one
fn step_of(write: &Write) -> Option<Step<'_>>
    ensures { MatchOption result (EditsNone write.now) (λ s. Edits s write.now) }
{
    match write {
        Write::Change { change, tx, moment } => {
            let (tx, moment) = (*tx, *moment);
            Some(Step { change, tx, moment })
        }
        Write::Grant { .. } => None,
        Write::Release(_) => None,
        Write::Settle { .. } => None,
        Write::CloseSession(_) => None,
        Write::AddPending { .. } => None,
        Write::PopPending { .. } => None,
        Write::Done(_) => None,
        Write::Ping { .. } => None,
        Write::Pong { .. } => None,
    }
}

// takes what a write needs, after the edit that waits
fn prepare_write<'a>(
    alloc: Global,
    drafts: &mut Drafts,
    slots: &mut Slots,
    owners: &mut Owners,
    waiting: Option<Step<'a>>,
    write: &'a Write,
) -> Result<Option<Step<'a>>, NoMemory>
    requires ready { IsReady drafts.old slots.old owners.old }
    requires lone { may_wait drafts.old waiting ≡ true }
    ensures grows { Grows slots.old owners.old slots.new owners.new }
    ensures slot { OnOk result (has_slot_of slots.new write.now ≡ true) }
    ensures stands { IfOk result (λ w. Stands (λ p. node_after write.now p
        (pended waiting.entry p (node_over drafts.old slots.old p))) w drafts.new slots.new
        owners.new) }
{
    place_of(slots, write)?;
    match step_of(write) {
        None => Ok(waiting),
        Some(step) => prepare_change(alloc, drafts, slots, owners, waiting, step),
    }
}

// makes the edit that waits in place
fn finish(slots: &mut Slots, waiting: Option<Step<'_>>) -> Result<(), NoMemory>
    requires { AreRising slots.old }
    ensures ok { OnOk result (AreChanged (pended_record waiting.entry) slots.old slots.new) }
    ensures err { OnErr result (KeepSame slots.old slots.new) }
    ensures slots { SameSlots slots.old slots.new }
{
    match waiting {
        None => Ok(()),
        Some(step) => edit_node(slots, step.change, step.tx, step.moment),
    }
}

/// Takes what the writes need, and gives the nodes as they will be; what refuses memory leaves all
/// records.
pub fn prepare(
    alloc: Global,
    slots: &mut Slots,
    owners: &mut Owners,
    writes: &[Write],
) -> Result<Drafts, NoMemory>
    requires owned { AreOwned slots.old owners.old }
    requires rising { AreRising slots.old }
    ensures ok { IfOk result (λ d. IsPrepared writes.now slots.old d slots.new owners.new) }
    ensures err { OnErr result (Grows slots.old owners.old slots.new owners.new) }
{
    let mut drafts = BTreeMap::new(alloc);
    let mut waiting = None;
    'preparing: for write in writes {
        waiting = prepare_write(alloc, &mut drafts, slots, owners, waiting, write)?;
    }
    finish(slots, waiting)?;
    Ok(drafts)
}
