//! The last sweep of each path.

ghost use Rattle.std.specs.Prelude.{◌≡◌, true, if◌then◌else◌, OnOk};
ghost use Rattle.fk_base.specs.Path.{PathNames, same_path};
ghost use Rattle.fk_tree.specs.Watch.{has_touch};
ghost use Rattle.fk_watch.specs.Kept.{last_in};
ghost use Rattle.fk_watch.specs.Touched.{has_sweep, HaveSweeps, KeepsLasts, KeepsPlaces};

use fk_base::{NoMemory, Path};
use fk_tree::Touch;
use std::collections::BTreeMap;

/// The last sweep of each path that has a place; the others were never swept.
pub type Sweeps = BTreeMap<Path, u64>;

pub fn last_sweep(sweeps: &Sweeps, path: &Path) -> u64
    ensures { result ≡ last_in path.now sweeps.now.entries }
{
    match sweeps.get(path) {
        None => 0,
        Some(tx) => *tx,
    }
}

// sees that a path has a place
#[tactic(auto, using(crate::proofs::Touching::place_there, crate::proofs::Touching::place_kept, crate::proofs::Touching::zero_put))]
fn add_place(sweeps: &mut Sweeps, path: &Path) -> Result<(), NoMemory>
    ensures place { OnOk result (has_sweep path.now sweeps.new.entries ≡ true) }
    ensures places { KeepsPlaces sweeps.old.entries sweeps.new.entries }
    ensures same { KeepsLasts sweeps.old.entries sweeps.new.entries }
{
    if !sweeps.contains_key(path) {
        sweeps.insert(path.copy()?, 0)?;
    }
    Ok(())
}

/// Sees that each touched path has a place.
pub fn add_places(sweeps: &mut Sweeps, touches: &[Touch]) -> Result<(), NoMemory>
    ensures places { OnOk result (HaveSweeps touches.now sweeps.new.entries) }
    ensures same { KeepsLasts sweeps.old.entries sweeps.new.entries }
{
    'adding: for touch in touches {
        add_place(sweeps, &touch.path)?;
    }
    Ok(())
}

// the last sweep of a path that has a place
fn put(sweeps: &mut Sweeps, path: &Path, tx: u64)
    requires { has_sweep path.now sweeps.old.entries ≡ true }
    ensures lasts { (p : PathNames) → last_in p sweeps.new.entries
        ≡ (if same_path path.now p then tx else last_in p sweeps.old.entries) }
    ensures places { KeepsPlaces sweeps.old.entries sweeps.new.entries }
{
    if let Some(last) = sweeps.get_mut(path) {
        *last = tx;
    }
}

/// The last sweep of each touched path.
pub fn put_all(sweeps: &mut Sweeps, touches: &[Touch], tx: u64)
    requires { HaveSweeps touches.now sweeps.old.entries }
    ensures { (p : PathNames) → last_in p sweeps.new.entries
        ≡ (if has_touch p touches.now then tx else last_in p sweeps.old.entries) }
{
    'putting: for touch in touches {
        put(sweeps, &touch.path, tx);
    }
}
