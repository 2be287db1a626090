//! Which paths the sessions own.

ghost use Rattle.std.specs.Prelude.{◌≡◌, ◌<◌, ℕ, true, false, IfOk, OnOk};
ghost use Rattle.fk_base.specs.Path.{PathNames, path_cmp, same_path};
ghost use Rattle.fk_tree.specs.Sorted.{rises};
ghost use Rattle.fk_tree.specs.Rows.{is_noted, is_of, noted, row_node, those_of, AreNoted, KeepsNotes};
ghost use Rattle.std.specs.Option.{option_copied};

use crate::node::Node;
use crate::slots::{Slots, node_at};
use fk_base::{NoMemory, Path, Paths};
use std::alloc::Global;
use std::collections::{BTreeMap, BTreeSet};

/// The paths that are noted as a session's: all that it owns, and maybe others.
pub type Owners = BTreeMap<u32, BTreeSet<Path>>;

// sees that a session has a set
fn add_set(alloc: Global, owners: &mut Owners, session: u32) -> Result<(), NoMemory>
    ensures { KeepsNotes owners.old owners.new }
{
    if !owners.contains_key(&session) {
        owners.insert(session, BTreeSet::new(alloc))?;
    }
    Ok(())
}

/// Notes a path as a session's.
pub fn note(alloc: Global, owners: &mut Owners, session: u32, path: &Path) -> Result<(), NoMemory>
    ensures notes { KeepsNotes owners.old owners.new }
    ensures noted { OnOk result (is_noted session path.now owners.new ≡ true) }
{
    add_set(alloc, owners, session)?;
    let Some(set) = owners.get_mut(&session) else {
        return Err(NoMemory);
    };
    set.insert(path.copy()?)?;
    Ok(())
}

/// Takes a path from a session's.
pub fn forget(owners: &mut Owners, session: u32, path: &Path)
    ensures { (s : ℕ) (p : PathNames) → same_path p path.now ≡ false → is_noted s p owners.old ≡ true → is_noted s p owners.new ≡ true }
{
    if let Some(set) = owners.get_mut(&session) {
        set.remove(path);
    }
}

/// The paths whose node a session owns, in path order.
#[tactic(auto, using(crate::proofs::Notes::those_taken, crate::proofs::Notes::those_passed, crate::proofs::Notes::listed_rise))]
pub fn owned(alloc: Global, owners: &Owners, slots: &Slots, session: u32) -> Result<Paths, NoMemory>
    ensures those { IfOk result (λ ps. ps ≡ those_of session slots.now.entries (noted session owners.now)) }
    ensures rises { IfOk result (λ ps. rises path_cmp ps ≡ true) }
{
    let mut owned = Paths::new(alloc);
    let Some(set) = owners.get(&session) else {
        return Ok(owned);
    };
    'listing: for path in set {
        if is_of(session, node_at(slots, path)) {
            owned.push(path.copy()?)?;
        }
    }
    Ok(owned)
}

fn is_of(session: u32, node: Option<&Node>) -> bool
    ensures { result ≡ is_of session (option_copied node.entry) }
{
    node.is_some_and(|node| node.owner == session)
}
