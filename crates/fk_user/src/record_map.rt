//! Records under their paths.

ghost use Rattle.std.specs.Prelude.{◌≡◌, [], ◌∷◌, true, if◌then◌else◌, IfOk, OnOk, OnErr};
ghost use Rattle.fk_base.specs.Path.{PathNames, name_cmp, same_path};
ghost use Rattle.fk_tree.specs.Rows.{names_of};
ghost use Rattle.fk_tree.specs.Sorted.{rises};
ghost use Rattle.fk_user.specs.Meaning.{put_record, root_record};
ghost use Rattle.fk_user.specs.Own.{are_own};
ghost use Rattle.fk_user.specs.Records.{has_record, record_in, IsEdited, KeepsRecords};

use crate::record::{UserRecord, edit_record, root_record};
use fk_base::{NoMemory, Path};
use fk_tree::{Edit, Node, edit_sorted};
use std::alloc::Global;
use std::collections::BTreeMap;

pub type RecordMap = BTreeMap<Path, UserRecord>;

/// The root's record alone, as it starts.
pub fn root_alone(alloc: Global) -> Result<RecordMap, NoMemory>
    ensures { IfOk result (λ records. records.entries ≡ ([], root_record) ∷ []) }
{
    let mut records = BTreeMap::new(alloc);
    records.insert(Path::root(alloc), root_record(alloc))?;
    Ok(records)
}

// a copy of a path's node
fn node_copy(records: &RecordMap, path: &Path) -> Result<Option<Node>, NoMemory>
    ensures { IfOk result (λ o. o ≡ (record_in records.now.entries path.now).node) }
{
    match records.get(path) {
        None => Ok(None),
        Some(kept) => match &kept.node {
            None => Ok(None),
            Some(node) => Ok(Some(node.copy()?)),
        },
    }
}

// makes one edit of the node of a path that has a record, where it stands
fn edit_there(
    records: &mut RecordMap,
    path: &Path,
    tx: u64,
    moment: u64,
    change: &Edit,
) -> Result<(), NoMemory>
    requires there { has_record records.old.entries path.now ≡ true }
    requires own { are_own path.now (change.now ∷ []) ≡ true }
    requires rising { rises name_cmp (names_of (record_in records.old.entries path.now).node) ≡ true }
    ensures ok { OnOk result (IsEdited records.old.entries records.new.entries path.now tx moment (change.now ∷ [])) }
    ensures err { OnErr result (KeepsRecords records.old.entries records.new.entries) }
{
    match records.get_mut(path) {
        None => Ok(()),
        Some(kept) => edit_record(kept, tx, moment, change),
    }
}

// the record of a path after edits of a copy of its node
#[tactic(auto, using(crate::proofs::Putting::edits_step))]
fn record_after(
    records: &RecordMap,
    path: &Path,
    tx: u64,
    moment: u64,
    edits: &[Edit],
) -> Result<UserRecord, NoMemory>
    requires own { are_own path.now edits.now ≡ true }
    requires rising { rises name_cmp (names_of (record_in records.now.entries path.now).node) ≡ true }
    ensures { IfOk result (λ r. r ≡ put_record path.now tx moment edits.now (record_in records.now.entries path.now)) }
{
    let mut node = node_copy(records, path)?;
    'editing: for change in edits {
        edit_sorted(&mut node, change, tx, moment)?;
    }
    Ok(UserRecord { node, stamp: tx })
}

// puts a record in place of what is there
#[tactic(auto, using(crate::proofs::Putting::updated_record))]
fn put(records: &mut RecordMap, path: &Path, kept: UserRecord) -> Result<(), NoMemory>
    ensures ok { OnOk result ((p : PathNames) → record_in records.new.entries p ≡ (if same_path p path.now then kept else record_in records.old.entries p)) }
    ensures err { OnErr result (KeepsRecords records.old.entries records.new.entries) }
{
    records.insert(path.copy()?, kept)?;
    Ok(())
}

// puts the record of a path after edits of its node
#[tactic(auto, using(crate::proofs::Putting::put_after))]
fn put_edited(
    records: &mut RecordMap,
    path: &Path,
    tx: u64,
    moment: u64,
    edits: &[Edit],
) -> Result<(), NoMemory>
    requires own { are_own path.now edits.now ≡ true }
    requires rising { rises name_cmp (names_of (record_in records.old.entries path.now).node) ≡ true }
    ensures ok { OnOk result (IsEdited records.old.entries records.new.entries path.now tx moment edits.now) }
    ensures err { OnErr result (KeepsRecords records.old.entries records.new.entries) }
{
    let kept = record_after(records, path, tx, moment, edits)?;
    put(records, path, kept)?;
    Ok(())
}

/// Makes edits of a path's node and sets its stamp. One edit of a node that is there is made where it
/// stands; else the edits are made of a copy.
pub fn put_edits(
    records: &mut RecordMap,
    path: &Path,
    tx: u64,
    moment: u64,
    edits: &[Edit],
) -> Result<(), NoMemory>
    requires own { are_own path.now edits.now ≡ true }
    requires rising { rises name_cmp (names_of (record_in records.old.entries path.now).node) ≡ true }
    ensures ok { OnOk result (IsEdited records.old.entries records.new.entries path.now tx moment edits.now) }
    ensures err { OnErr result (KeepsRecords records.old.entries records.new.entries) }
{
    if let [change] = edits
        && records.contains_key(path)
    {
        return edit_there(records, path, tx, moment, change);
    }
    put_edited(records, path, tx, moment, edits)
}
