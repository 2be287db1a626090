//! What writes make of the records of paths: a draft of rows that stand over those of the table.

ghost use Rattle.std.specs.Prelude.{◌≡◌, ◌++◌, true, false, if◌then◌else◌, Some, MatchOption, IfOk, OnOk, slice_index};
ghost use Rattle.fk_base.specs.Path.{PathNames, same_path};
ghost use Rattle.fk_store.specs.Rows.{has_row, row_from, row_record};
ghost use Rattle.fk_store.specs.Writes.{change_record, grant_record, is_of_path, record_after, record_by, records_written, release_record};

use crate::lock::{Lock, UNLOCKED};
use crate::node_record::NodeRecord;
use crate::rows::{Row, place_of, record_in};
use crate::write::Write;
use fk_base::{NoMemory, Path};
use fk_tree::{Edit, edit_node};
use std::alloc::Global;

// grants the lock of a path; one without a record gets one.
fn grant(kept: &mut Option<NodeRecord>, inv: u64, moment: u64)
    ensures { kept.new ≡ grant_record inv moment kept.old }
{
    let lock = Lock {
        inv,
        moment,
        held: true,
    };
    match kept {
        Some(kept) => kept.lock = lock,
        None => {
            *kept = Some(NodeRecord {
                node: None,
                lock,
                last: 0,
            });
        }
    }
}

/// Grants the lock of a path that has a row.
#[tactic(auto, using(crate::proofs::Keeping::none_placed, crate::proofs::Keeping::place_within, crate::proofs::Drafting::granted))]
pub fn grant_row(rows: &mut Vec<Row>, path: &Path, inv: u64, moment: u64)
    requires { has_row path.now rows.old.items ≡ true }
    ensures { (p : PathNames) → row_record p rows.new.items ≡ (if same_path p path.now then grant_record inv moment (row_record p rows.old.items) else row_record p rows.old.items) }
{
    if let Some(place) = place_of(rows.as_slice(), path) {
        grant(&mut rows[place].kept, inv, moment);
    }
}

fn release(kept: &mut Option<NodeRecord>)
    ensures { kept.new ≡ release_record kept.old }
{
    if let Some(kept) = kept {
        kept.lock.held = false;
    }
}

fn change(
    kept: &mut Option<NodeRecord>,
    change: &Edit,
    tx: u64,
    moment: u64,
) -> Result<(), NoMemory>
    ensures { OnOk result (kept.new ≡ change_record change.now tx moment kept.old) }
{
    match kept {
        Some(kept) => {
            edit_node(&mut kept.node, change, tx, moment)?;
            kept.last = tx;
        }
        None => {
            let mut node = None;
            edit_node(&mut node, change, tx, moment)?;
            *kept = Some(NodeRecord {
                node,
                lock: UNLOCKED,
                last: tx,
            });
        }
    }
    Ok(())
}

// the path whose record a write changes
fn path_of(write: &Write) -> Option<&Path>
    ensures { MatchOption result ((p : PathNames) → is_of_path p write.now ≡ false) (λ q. (p : PathNames) → is_of_path p write.now ≡ same_path p q.now) }
{
    match write {
        Write::Grant { path, .. } => Some(path),
        Write::Release(path) => Some(path),
        Write::Change { change, .. } => Some(&change.path),
        Write::Settle { .. } => None,
        Write::CloseSession(_) => None,
        Write::AddPending { .. } => None,
        Write::PopPending { .. } => None,
        Write::Done(_) => None,
        Write::Ping { .. } => None,
        Write::Pong { .. } => None,
    }
}

// makes a write in the record of its path
fn write_record(kept: &mut Option<NodeRecord>, write: &Write) -> Result<(), NoMemory>
    ensures { OnOk result (kept.new ≡ record_by write.now kept.old) }
{
    match write {
        Write::Grant { inv, moment, .. } => {
            grant(kept, *inv, *moment);
            Ok(())
        }
        Write::Release(_) => {
            release(kept);
            Ok(())
        }
        Write::Change {
            change: edit,
            tx,
            moment,
        } => change(kept, edit, *tx, *moment),
        Write::Settle { .. } => Ok(()),
        Write::CloseSession(_) => Ok(()),
        Write::AddPending { .. } => Ok(()),
        Write::PopPending { .. } => Ok(()),
        Write::Done(_) => Ok(()),
        Write::Ping { .. } => Ok(()),
        Write::Pong { .. } => Ok(()),
    }
}

fn copy_in(rows: &[Row], path: &Path) -> Result<Option<NodeRecord>, NoMemory>
    ensures { IfOk result (λ o. o ≡ row_record path.now rows.now) }
{
    match record_in(rows, path) {
        None => Ok(None),
        Some(kept) => Ok(Some(kept.copy()?)),
    }
}

// sees that a path has a row in the draft, with the record that it has over the rows
#[tactic(auto, using(crate::proofs::Drafting::placed_last, crate::proofs::Drafting::copy_keeps))]
fn stage(draft: &mut Vec<Row>, rows: &[Row], path: &Path) -> Result<usize, NoMemory>
    ensures place { IfOk result (λ k. row_from 0 path.now draft.new.items ≡ Some k) }
    ensures same { OnOk result ((p : PathNames) → row_record p (draft.new.items ++ rows.now) ≡ row_record p (draft.old.items ++ rows.now)) }
{
    if let Some(place) = place_of(draft.as_slice(), path) {
        return Ok(place);
    }
    let place = draft.len();
    draft.push(Row {
        path: path.copy()?,
        kept: copy_in(rows, path)?,
    })?;
    Ok(place)
}

// makes a write in the draft
#[tactic(auto, using(crate::proofs::Keeping::place_within, crate::proofs::Drafting::drafted))]
fn draft_write(draft: &mut Vec<Row>, rows: &[Row], write: &Write) -> Result<(), NoMemory>
    ensures { OnOk result ((p : PathNames) → row_record p (draft.new.items ++ rows.now) ≡ record_after write.now p (row_record p (draft.old.items ++ rows.now))) }
{
    let Some(path) = path_of(write) else {
        return Ok(());
    };
    let place = stage(draft, rows, path)?;
    write_record(&mut draft[place].kept, write)
}

/// Rows that stand over those of a table, with what the writes make of the records of their paths.
#[tactic(auto, using(crate::proofs::Drafting::records_step))]
pub fn draft_of(alloc: Global, rows: &[Row], writes: &[Write]) -> Result<Vec<Row>, NoMemory>
    ensures { IfOk result (λ draft. (p : PathNames) → row_record p (draft.items ++ rows.now) ≡ records_written p writes.now (row_record p rows.now)) }
{
    let mut draft = Vec::new(alloc);
    'writing: for write in writes {
        draft_write(&mut draft, rows, write)?;
    }
    Ok(draft)
}
