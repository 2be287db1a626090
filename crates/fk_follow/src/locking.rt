//! The paths to lock for a request.

ghost use Rattle.std.specs.Prelude.{◌≡◌, ◌++◌, [], IfOk, OnOk};
ghost use Rattle.fk_tree.specs.Locks.{lock_paths, numbered_paths, part_lock_paths, parts_lock_paths, with_parent, with_parents};
ghost use Rattle.fk_base.specs.Path.{parent};
ghost use Rattle.fk_spec.specs.Follower.{node_in, view_of};
ghost use Rattle.fk_follow.specs.Standing.{grants_of};

use crate::granted::{Granted, node_in};
use fk_base::{NoMemory, Path};
use fk_settle::in_order;
use fk_tree::{Part, Request, final_path};
use std::alloc::Global;

/// The paths to lock for a request, in order, where these are granted; of a close no path.
pub fn few_lock_paths(
    alloc: Global,
    granted: &[Granted],
    request: &Request,
) -> Result<Vec<Path>, NoMemory>
    ensures { let view = view_of (grants_of granted.now) in
        IfOk result (λ ps. ps.items ≡ lock_paths view [] request.now) }
{
    let mut paths = Vec::new(alloc);
    match request {
        Request::Create { path, seq, .. } => {
            if *seq {
                push_numbered(&mut paths, path, granted)?;
            } else {
                push_with_parent(&mut paths, path)?;
            }
            Ok(paths)
        }
        Request::Set { path, .. } => {
            paths.push(path.copy()?)?;
            Ok(paths)
        }
        Request::Delete { path, .. } => {
            push_with_parent(&mut paths, path)?;
            Ok(paths)
        }
        Request::Close { .. } => Ok(paths),
        Request::Multi(parts) => {
            push_parts(&mut paths, parts.as_slice())?;
            in_order(alloc, paths.as_slice())
        }
    }
}

// the parent, then the path
fn push_with_parent(paths: &mut Vec<Path>, path: &Path) -> Result<(), NoMemory>
    ensures { OnOk result (paths.new.items ≡ paths.old.items ++ with_parent path.now) }
{
    if let Some(parent) = path.parent()? {
        paths.push(parent)?;
    }
    paths.push(path.copy()?)?;
    Ok(())
}

/// Adds each path behind its parent.
pub fn push_with_parents(paths: &mut Vec<Path>, owned: &[Path]) -> Result<(), NoMemory>
    ensures { OnOk result (paths.new.items ≡ paths.old.items ++ with_parents owned.now) }
{
    'pushing: for path in owned {
        push_with_parent(paths, path)?;
    }
    Ok(())
}

// the parent, then what its node makes of a sequential create's path
fn push_numbered(paths: &mut Vec<Path>, path: &Path, granted: &[Granted]) -> Result<(), NoMemory>
    ensures { let above = node_in (grants_of granted.now) (parent path.now) in
        OnOk result (paths.new.items ≡ paths.old.items ++ numbered_paths path.now above) }
{
    let Some(parent) = path.parent()? else {
        paths.push(path.copy()?)?;
        return Ok(());
    };
    let last = match node_in(granted, &parent) {
        None => None,
        Some(node) => {
            if node.owner == 0 {
                Some(final_path(path, true, node.made)?)
            } else {
                None
            }
        }
    };
    paths.push(parent)?;
    if let Some(last) = last {
        paths.push(last)?;
    }
    Ok(())
}

fn push_part(paths: &mut Vec<Path>, part: &Part) -> Result<(), NoMemory>
    ensures { OnOk result (paths.new.items ≡ paths.old.items ++ part_lock_paths part.now) }
{
    match part {
        Part::Create { path, .. } => push_with_parent(paths, path),
        Part::Set { path, .. } => {
            paths.push(path.copy()?)?;
            Ok(())
        }
        Part::Delete { path, .. } => push_with_parent(paths, path),
    }
}

fn push_parts(paths: &mut Vec<Path>, parts: &[Part]) -> Result<(), NoMemory>
    ensures { OnOk result (paths.new.items ≡ paths.old.items ++ parts_lock_paths parts.now) }
{
    'pushing: for part in parts {
        push_part(paths, part)?;
    }
    Ok(())
}
