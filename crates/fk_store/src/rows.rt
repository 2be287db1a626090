//! The records of paths in rows.

ghost use Rattle.std.specs.Prelude.{◌≡◌, [], ◌∷◌, ◌++◌, true, None, Some, MatchOption, OnOk};
ghost use Rattle.fk_base.specs.Path.{PathNames};
ghost use Rattle.fk_store.specs.Meaning.{root_record};
ghost use Rattle.fk_store.specs.Rows.{has_row, row_from, row_record, rows_have_rows, KeepSame, KeepsRows};

use crate::lock::UNLOCKED;
use crate::node_record::NodeRecord;
use fk_base::{NoMemory, Path};
use fk_tree::Node;
use std::alloc::Global;

/// A path and its record; a row may stand without a record, as if it weren't there.
#[derive(Drop)]
pub struct Row {
    pub path: Path,
    pub kept: Option<NodeRecord>,
}

/// The row of the root as it starts: no data, no child and all numbers 0; never locked.
pub fn root_row(alloc: Global) -> Row
    ensures path { result.path ≡ [] }
    ensures kept { result.kept ≡ Some root_record }
{
    Row {
        path: Path::root(alloc),
        kept: Some(NodeRecord {
            node: Some(Node::root(alloc)),
            lock: UNLOCKED,
            last: 0,
        }),
    }
}

pub fn record_in<'a>(rows: &'a [Row], path: &Path) -> Option<&'a NodeRecord>
    ensures { MatchOption result (row_record path.now rows.now ≡ None) (λ r. row_record path.now rows.now ≡ Some r.now) }
{
    'seeking: for row in rows {
        if path.same(&row.path) {
            return row.kept.as_ref();
        }
    }
    None
}

/// Where the first row of a path stands.
pub fn place_of(rows: &[Row], path: &Path) -> Option<usize>
    ensures { result ≡ row_from 0 path.now rows.now }
{
    'seeking: for (place, row) in rows.iter().enumerate() {
        if path.same(&row.path) {
            return Some(place);
        }
    }
    None
}

/// Sees that a path has a row.
#[tactic(auto, using(crate::proofs::Keeping::row_added, crate::proofs::Keeping::rows_stay, crate::proofs::Keeping::empty_row_keeps, crate::proofs::Keeping::some_placed))]
pub fn add_row(rows: &mut Vec<Row>, path: &Path) -> Result<(), NoMemory>
    ensures row { OnOk result (has_row path.now rows.new.items ≡ true) }
    ensures rows { KeepsRows rows.old.items rows.new.items }
    ensures same { KeepSame rows.old.items rows.new.items }
{
    if place_of(rows.as_slice(), path).is_none() {
        rows.push(Row {
            path: path.copy()?,
            kept: None,
        })?;
    }
    Ok(())
}

/// Sees that the path of each of these rows has a row.
#[tactic(auto, using(crate::proofs::Keeping::have_rows_step))]
pub fn add_rows(rows: &mut Vec<Row>, draft: &[Row]) -> Result<(), NoMemory>
    ensures rows { OnOk result (rows_have_rows draft.now rows.new.items ≡ true) }
    ensures same { KeepSame rows.old.items rows.new.items }
{
    'adding: for row in draft {
        add_row(rows, &row.path)?;
    }
    Ok(())
}

// puts a row in place of the first one of its path
#[tactic(auto, using(crate::proofs::Keeping::place_within, crate::proofs::Keeping::none_placed, crate::proofs::Keeping::put_record, crate::proofs::Keeping::put_has))]
fn put_row(rows: &mut Vec<Row>, row: Row)
    requires { has_row row.path rows.old.items ≡ true }
    ensures records { (p : PathNames) → row_record p rows.new.items ≡ row_record p (row ∷ rows.old.items) }
    ensures rows { (p : PathNames) → has_row p rows.new.items ≡ has_row p rows.old.items }
{
    if let Some(place) = place_of(rows.as_slice(), &row.path) {
        rows[place] = row;
    }
}

/// Puts rows in place of those of their paths.
#[tactic(auto, using(crate::proofs::Keeping::over_last, crate::proofs::Keeping::last_has_row, crate::proofs::Keeping::have_rows_like))]
pub fn put_rows(rows: &mut Vec<Row>, mut draft: Vec<Row>)
    requires { rows_have_rows draft.items rows.old.items ≡ true }
    ensures { (p : PathNames) → row_record p rows.new.items ≡ row_record p (draft.items ++ rows.old.items) }
{
    'putting: while let Some(row) = draft.pop() {
        put_row(rows, row);
    }
}
