//! The nodes that a follower's session owns, for a close.

ghost use Rattle.std.specs.Prelude.{◌≡◌, [], IfOk};
ghost use Rattle.fk_tree.specs.Locks.{with_parents};
ghost use Rattle.fk_tree.specs.Sorted.{in_path_order};

use crate::locking::push_with_parents;
use fk_base::{NoMemory, Path, Paths};
use fk_settle::in_order;
use std::alloc::Global;
use std::marker::Model;

/// The paths of a session's nodes, which it means, and those that a close of the session locks.
#[derive(Drop)]
pub struct OwnNodes {
    paths: Paths,
    locks: Vec<Path>,
}

impl Model for OwnNodes {
    ghost use Rattle.std.specs.Prelude.{◌≡◌, List};
    ghost use Rattle.fk_base.specs.Path.{PathNames};
    ghost use Rattle.fk_tree.specs.Locks.{with_parents};
    ghost use Rattle.fk_tree.specs.Sorted.{in_path_order};

    ghost Value = { List PathNames };

    ghost view = { λ o. o.paths };

    ghost invariant = { λ o. o.locks.items ≡ in_path_order (with_parents o.paths) };
}

impl OwnNodes {
    pub fn none(alloc: Global) -> OwnNodes
        ensures { result ≡ [] }
    {
        OwnNodes {
            paths: Paths::new(alloc),
            locks: Vec::new(alloc),
        }
    }

    pub fn of(alloc: Global, paths: Paths) -> Result<OwnNodes, NoMemory>
        ensures { IfOk result (λ o. o ≡ paths) }
    {
        let mut all = Vec::new(alloc);
        push_with_parents(&mut all, paths.as_slice())?;
        let locks = in_order(alloc, all.as_slice())?;
        Ok(OwnNodes { paths, locks })
    }

    pub fn paths(&self) -> &[Path]
        ensures { result.now ≡ self.now }
    {
        self.paths.as_slice()
    }

    /// The paths that a close locks, in their order.
    pub fn locks(&self) -> &[Path]
        ensures { result.now ≡ in_path_order (with_parents self.now) }
    {
        self.locks.as_slice()
    }
}
