//! What is computed from the nodes for a request that is applied.

ghost use Rattle.std.specs.Prelude.{◌≡◌, ℕ, Bool, false, true, IfOk};
ghost use Rattle.std.specs.Option.{option_copied};
ghost use Rattle.fk_base.specs.Path.{is_root, parent, path_cmp};
ghost use Rattle.fk_tree.specs.Sorted.{rises};
ghost use Rattle.fk_tree.specs.Fill.{fill_made, fill_name, fill_version, final_path, made_of};
ghost use Rattle.fk_tree.specs.Rows.{gone_from, row_node, shown, IsOfChild};

use crate::lists::Mades;
use crate::node::Node;
use crate::node_edit::up;
use crate::owners::{Owners, owned};
use crate::parts::{fill_parts, version_of};
use crate::request::Request;
use crate::sequence::final_path;
use crate::slots::{Slots, node_at};
use fk_base::{NoMemory, Path, Paths};
use std::alloc::Global;

/// The final path of a create, else the root.
pub fn created_path(alloc: Global, slots: &Slots, request: &Request) -> Result<Path, NoMemory>
    ensures { (closed : ℕ → Bool) → IsOfChild request.now → IfOk result (λ p. p ≡ fill_name (shown slots.now.entries closed) request.now) }
{
    match request {
        Request::Create { path, seq, .. } => name_at(slots, path, *seq),
        Request::Set { .. } | Request::Delete { .. } | Request::Close { .. } | Request::Multi(_) =>
            Ok(Path::root(alloc)),
    }
}

fn name_at(slots: &Slots, path: &Path, seq: bool) -> Result<Path, NoMemory>
    ensures { is_root path.now ≡ false → IfOk result (λ p. p ≡ final_path path.now seq (made_of (row_node (parent path.now) slots.now.entries))) }
{
    let Some(parent) = path.parent()? else {
        return path.copy();
    };
    final_path(path, seq, made_of(node_at(slots, &parent)))
}

fn made_of(node: Option<&Node>) -> u32
    ensures { result ≡ made_of (option_copied node.entry) }
{
    node.map_or(0, |node| node.made)
}

/// The new version of a set, else 0.
pub fn new_version(slots: &Slots, request: &Request) -> u32
    ensures { (closed : ℕ → Bool) → result ≡ fill_version (shown slots.now.entries closed) request.now }
{
    match request {
        Request::Set { path, .. } => up(version_of(node_at(slots, path))),
        Request::Create { .. }
        | Request::Delete { .. }
        | Request::Close { .. }
        | Request::Multi(_) => 0,
    }
}

/// The paths that a close removes, else none.
pub fn gone(
    alloc: Global,
    owners: &Owners,
    slots: &Slots,
    session: u32,
    request: &Request,
) -> Result<Paths, NoMemory>
    ensures gone { IfOk result (λ ps. ps ≡ gone_from slots.now.entries owners.now session request.now) }
    ensures rises { IfOk result (λ ps. rises path_cmp ps ≡ true) }
{
    match request {
        Request::Close { .. } => owned(alloc, owners, slots, session),
        Request::Create { .. } | Request::Set { .. } | Request::Delete { .. } | Request::Multi(_) =>
            Ok(Paths::new(alloc)),
    }
}

/// What the parts of a multi come to, else none.
pub fn made(
    alloc: Global,
    slots: &Slots,
    session: u32,
    request: &Request,
) -> Result<Mades, NoMemory>
    ensures { (closed : ℕ → Bool) → IfOk result (λ ms. ms ≡ fill_made (shown slots.now.entries closed) session request.now) }
{
    match request {
        Request::Multi(parts) => fill_parts(alloc, slots, session, parts.as_slice()),
        Request::Create { .. }
        | Request::Set { .. }
        | Request::Delete { .. }
        | Request::Close { .. } => Ok(Mades::new(alloc)),
    }
}
