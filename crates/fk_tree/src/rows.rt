//! The nodes of some paths, on which a request is checked and filled.

ghost use Rattle.std.specs.Prelude.{◌≡◌, [], None, Some, if◌then◌else◌, IfErr, IfOk, MatchOption, OnErr, OnOk};
ghost use Rattle.fk_tree.specs.Check.{check, HasFewParts, IsFault};
ghost use Rattle.fk_tree.specs.Fill.{fill_made, fill_name, fill_version, final_path, made_of};
ghost use Rattle.fk_tree.specs.Shown.{no_nodes, rows_view, with_node};
ghost use Rattle.fk_base.specs.Path.{PathNames, parent, same_path};
ghost use Rattle.fk_tree.specs.Rows.{row_node};

use crate::checking::check_open;
use crate::fault::CheckFault;
use crate::filling::{made, new_version};
use crate::lists::Mades;
use crate::node::Node;
use crate::request::Request;
use crate::sequence::{final_path, numbered_root};
use crate::slots::{Slots, node_at};
use fk_base::{NoMemory, Path};
use std::alloc::Global;
use std::collections::BTreeMap;

/// The nodes of some paths, as the records of their locks show them. A path that wasn't put counts as
/// missing, and no session as closed.
#[derive(Drop)]
pub struct Rows {
    alloc: Global,
    slots: Slots,
}

impl Rows {
    #[tactic(auto, unfolding(crate::specs::Shown::rows_view))]
    pub fn new(alloc: Global) -> Rows
        ensures { rows_view result ≡ no_nodes }
    {
        Rows {
            alloc,
            slots: BTreeMap::new(alloc),
        }
    }

    /// Puts a node, or none, in place of what is there.
    #[tactic(auto, unfolding(crate::specs::Shown::rows_view))]
    pub fn put(&mut self, path: Path, node: Option<Node>) -> Result<(), NoMemory>
        ensures ok { OnOk result (rows_view self.new ≡ with_node path node (rows_view self.old)) }
        ensures err { OnErr result (rows_view self.new ≡ rows_view self.old) }
    {
        put_node(&mut self.slots, path, node)
    }

    #[tactic(auto, unfolding(crate::specs::Shown::rows_view))]
    pub fn node(&self, path: &Path) -> Option<&Node>
        ensures { MatchOption result ((rows_view self.now).node path.now ≡ None) (λ n. (rows_view self.now).node path.now ≡ Some n.now) }
    {
        node_at(&self.slots, path)
    }

    /// Whether a request of a session passes, or why not.
    #[tactic(auto, unfolding(crate::specs::Shown::rows_view))]
    pub fn check(&self, session: u32, request: &Request) -> Result<(), CheckFault>
        requires { HasFewParts request.now }
        ensures passes { OnOk result (check (rows_view self.now) session request.now ≡ None) }
        ensures refused { IfErr result (λ e. IsFault e (check (rows_view self.now) session request.now)) }
    {
        check_open(self.alloc, &self.slots, session, request)
    }

    /// The final path of a create, else the root.
    #[tactic(auto, unfolding(crate::specs::Shown::rows_view))]
    pub fn name(&self, request: &Request) -> Result<Path, NoMemory>
        ensures { IfOk result (λ p. p ≡ fill_name (rows_view self.now) request.now) }
    {
        match request {
            Request::Create { path, seq, .. } => self.final_path(path, *seq),
            Request::Set { .. }
            | Request::Delete { .. }
            | Request::Close { .. }
            | Request::Multi(_) => Ok(Path::root(self.alloc)),
        }
    }

    // the path that a create makes
    #[tactic(auto, unfolding(crate::specs::Shown::rows_view))]
    fn final_path(&self, path: &Path, seq: bool) -> Result<Path, NoMemory>
        ensures { IfOk result (λ p. p ≡ final_path path.now seq (made_of ((rows_view self.now).node (parent path.now)))) }
    {
        let Some(parent) = path.parent()? else {
            return root_path(self.alloc, path, seq, self.made_at(path));
        };
        final_path(path, seq, self.made_at(&parent))
    }

    #[tactic(auto, unfolding(crate::specs::Shown::rows_view))]
    fn made_at(&self, path: &Path) -> u32
        ensures { result ≡ made_of ((rows_view self.now).node path.now) }
    {
        match node_at(&self.slots, path) {
            None => 0,
            Some(node) => node.made,
        }
    }

    /// The new version of a set, else 0.
    #[tactic(auto, unfolding(crate::specs::Shown::rows_view))]
    pub fn version(&self, request: &Request) -> u32
        ensures { result ≡ fill_version (rows_view self.now) request.now }
    {
        new_version(&self.slots, request)
    }

    /// What the parts of a multi come to, else none.
    #[tactic(auto, unfolding(crate::specs::Shown::rows_view))]
    pub fn made(&self, session: u32, request: &Request) -> Result<Mades, NoMemory>
        ensures { IfOk result (λ ms. ms ≡ fill_made (rows_view self.now) session request.now) }
    {
        made(self.alloc, &self.slots, session, request)
    }
}

fn put_node(slots: &mut Slots, path: Path, node: Option<Node>) -> Result<(), NoMemory>
    ensures ok { OnOk result ((p : PathNames) → row_node p slots.new.entries ≡ (if same_path p path then node else row_node p slots.old.entries)) }
    ensures err { OnErr result (slots.new.entries ≡ slots.old.entries) }
{
    slots.insert(path, node)?;
    Ok(())
}

// of a create of the root, which no check passes
fn root_path(alloc: Global, path: &Path, seq: bool, made: u32) -> Result<Path, NoMemory>
    requires { path.now ≡ [] }
    ensures { IfOk result (λ p. p ≡ final_path path.now seq made) }
{
    if seq {
        numbered_root(alloc, made)
    } else {
        path.copy()
    }
}
