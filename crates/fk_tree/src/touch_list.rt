//! The paths that an applied request changes, and how.

ghost use Rattle.std.specs.Prelude.{◌≡◌, [], ◌∷◌, IfOk, OnOk};
ghost use Rattle.fk_tree.specs.Touch.{deletes_touches, part_touches, parts_touches, touches, touches_of, with_parent_touched};
ghost use Rattle.fk_tree.specs.Touching.{AreIndexed, Puts};

use crate::applied::{Applied, Made};
use crate::change::Change;
use crate::lists::Touches;
use crate::request::{Part, Request};
use crate::touch_set::TouchSet;
use fk_base::{NoMemory, Path};
use std::alloc::Global;

/// The changes of an applied request in their order, each pair of a path and a change once. Where a
/// multi has more parts than entries of `made`, or fewer, what is over counts for nothing.
#[tactic(auto, using(crate::proofs::Gathering::all_once))]
pub fn touched(alloc: Global, applied: &Applied) -> Result<Touches, NoMemory>
    ensures { IfOk result (λ ts. ts ≡ touches applied.now) }
{
    let mut set = TouchSet::new(alloc);
    touch_all(&mut set, applied)?;
    Ok(set.touches)
}

fn touch_all(set: &mut TouchSet, applied: &Applied) -> Result<(), NoMemory>
    requires { AreIndexed set.old }
    ensures { OnOk result (Puts (touches_of applied.now applied.now.request) set.old set.new) }
{
    match &applied.request {
        Request::Create { .. } => touch_both(set, &applied.name, Change::Created),
        Request::Set { path, .. } => set.put(path, Change::Changed),
        Request::Delete { path, .. } => touch_both(set, path, Change::Deleted),
        Request::Close { .. } => touch_deleted(set, applied.gone.as_slice()),
        Request::Multi(parts) => touch_parts(set, parts.as_slice(), applied.made.as_slice()),
    }
}

// the change of a path, and its parent as changed in its children; the root has no parent
fn touch_both(set: &mut TouchSet, path: &Path, change: Change) -> Result<(), NoMemory>
    requires { AreIndexed set.old }
    ensures { OnOk result (Puts (with_parent_touched path.now change) set.old set.new) }
{
    set.put(path, change)?;
    match path.parent()? {
        None => Ok(()),
        Some(parent) => set.put(&parent, Change::Child),
    }
}

#[tactic(auto, using(crate::proofs::Gathering::deletes_step))]
fn touch_deleted(set: &mut TouchSet, paths: &[Path]) -> Result<(), NoMemory>
    requires { AreIndexed set.old }
    ensures { OnOk result (Puts (deletes_touches paths.now) set.old set.new) }
{
    'deleting: for path in paths {
        touch_both(set, path, Change::Deleted)?;
    }
    Ok(())
}

fn touch_part(set: &mut TouchSet, part: &Part, made: &Made) -> Result<(), NoMemory>
    requires { AreIndexed set.old }
    ensures { OnOk result (Puts (part_touches part.now made.now) set.old set.new) }
{
    match part {
        Part::Create { .. } => touch_both(set, &made.name, Change::Created),
        Part::Set { path, .. } => set.put(path, Change::Changed),
        Part::Delete { path, .. } => touch_both(set, path, Change::Deleted),
    }
}

#[tactic(auto, using(crate::proofs::Gathering::parts_step, crate::proofs::Gathering::no_parts_left))]
fn touch_parts(set: &mut TouchSet, parts: &[Part], made: &[Made]) -> Result<(), NoMemory>
    requires { AreIndexed set.old }
    ensures { OnOk result (Puts (parts_touches parts.now made.now) set.old set.new) }
{
    'making: for (place, part) in parts.iter().enumerate() {
        let Some(made) = made.get(place) else {
            return Ok(());
        };
        touch_part(set, part, made)?;
    }
    Ok(())
}
