ghost use Rattle.std.specs.Prelude.{◌≡◌, ◌<◌, false, IfErr, IfOk, MatchOption, None, OnErr, OnOk};
ghost use Rattle.fk_tree.specs.Apply.{apply, reply_of, IsFilled};
ghost use Rattle.fk_tree.specs.Ask.{ask};
ghost use Rattle.fk_tree.specs.Check.{check, check_create, check_open, HasFewParts, IsFault};
ghost use Rattle.fk_tree.specs.Fill.{fill};
ghost use Rattle.fk_tree.specs.Tree.{start_tree};
ghost use Rattle.fk_tree.specs.View.{look};

use crate::applied::Applied;
use crate::checking::{answer, check_open};
use crate::child_names::has_sorted;
use crate::codes::create_code;
use crate::effect_list::{effects, parent_and_name};
use crate::fault::CheckFault;
use crate::filling::{created_path, gone, made, new_version};
use crate::node::Node;
use crate::owners::Owners;
use crate::replies::reply_to;
use crate::reply::{Answer, Reply};
use crate::request::{Query, Request};
use crate::sequence::final_name;
use crate::slots::{Slots, node_at, root_slots};
use crate::writes::{note_makes, write};
use fk_base::{Code, NoMemory, Path};
use std::alloc::Global;
use std::collections::BTreeMap;
use std::marker::Model;

/// The tree: the nodes by their paths, which of them a session owns, and the closed sessions.
#[derive(Drop)]
pub struct Tree {
    slots: Slots,
    owners: Owners,
    /// The last one that was closed comes first.
    closed: Vec<u32>,
}

impl Model for Tree {
    ghost use Rattle.fk_tree.specs.Tree.{Tree};
    ghost use Rattle.fk_tree.specs.Rows.{tree_of, tree_code, IsKept};

    ghost Value = { Tree };

    ghost coded = { tree_code };

    ghost view = { λ t. tree_of t.slots.entries t.closed.items };

    ghost invariant = { λ t. IsKept t.slots.entries t.owners };
}

impl Tree {
    /// The tree with the root alone.
    #[tactic(auto, using(crate::proofs::Starting::start_kept))]
    pub fn new(alloc: Global) -> Result<Tree, NoMemory>
        ensures { IfOk result (λ t. t ≡ start_tree) }
    {
        Ok(Tree {
            slots: root_slots(alloc)?,
            owners: BTreeMap::new(alloc),
            closed: Vec::new(alloc),
        })
    }

    /// Whether a request of a session passes, or why not.
    pub fn check(&self, session: u32, request: &Request) -> Result<(), CheckFault>
        requires session { 0 < session }
        requires parts { HasFewParts request.now }
        ensures passes { OnOk result (check (look self.now) session request.now ≡ None) }
        ensures refused { IfErr result (λ e. IsFault e (check (look self.now) session request.now)) }
    {
        if self.is_closed(session) {
            return Err(CheckFault::Refused {
                code: Code::SessionExpired,
                place: 0,
            });
        }
        self.check_open(session, request)
    }

    /// A request that passes as it is applied to this tree.
    pub fn fill(
        &self,
        tx: u64,
        moment: u64,
        session: u32,
        k: u64,
        request: &Request,
    ) -> Result<Applied, NoMemory>
        requires session { 0 < session }
        requires passes { check (look self.now) session request.now ≡ None }
        ensures { IfOk result (λ a. a ≡ fill self.now tx moment session k request.now) }
    {
        let alloc = self.allocator();
        Ok(Applied {
            tx,
            moment,
            session,
            k,
            request: request.copy()?,
            name: created_path(alloc, &self.slots, request)?,
            version: new_version(&self.slots, request),
            gone: gone(alloc, &self.owners, &self.slots, session, request)?,
            made: made(alloc, &self.slots, session, request)?,
        })
    }

    /// Applies a request that was filled on this tree, and tells its reply.
    pub fn apply(&mut self, applied: &Applied) -> Result<Reply, NoMemory>
        requires filled { IsFilled self.old applied.now }
        ensures tree { OnOk result (self.new ≡ apply self.old applied.now) }
        ensures reply { IfOk result (λ r. r ≡ reply_of applied.now) }
        ensures err { OnErr result (self.new ≡ self.old) }
    {
        let alloc = self.allocator();
        let reply = reply_to(alloc, applied)?;
        let edits = effects(alloc, applied)?;
        note_makes(alloc, &mut self.owners, edits.as_slice())?;
        write(
            alloc,
            &mut self.slots,
            &mut self.owners,
            &mut self.closed,
            applied,
            edits.as_slice(),
        )?;
        Ok(reply)
    }

    /// What a query is answered.
    pub fn ask(&self, query: &Query) -> Result<Answer, NoMemory>
        ensures { IfOk result (λ a. a ≡ ask (look self.now) query.now) }
    {
        let path = match query {
            Query::Get(path) | Query::Stat(path) | Query::Ls(path) => path,
        };
        let Some(node) = self.node(path) else {
            return Ok(Answer::NoNode);
        };
        match query {
            Query::Get(_) => Ok(Answer::Got(node.bytes.copy()?, node.stat())),
            Query::Stat(_) => Ok(Answer::Stated(node.stat())),
            Query::Ls(_) => Ok(Answer::Listed(node.names.copy()?)),
        }
    }

    fn allocator(&self) -> Global {
        *self.closed.allocator()
    }

    // for a session that isn't closed
    fn check_open(&self, session: u32, request: &Request) -> Result<(), CheckFault>
        requires session { 0 < session }
        requires parts { HasFewParts request.now }
        ensures passes { OnOk result (check_open (look self.now) session request.now ≡ None) }
        ensures refused { IfErr result (λ e. IsFault e (check_open (look self.now) session request.now)) }
    {
        match request {
            Request::Create { path, seq, .. } => answer(self.create_code(path, *seq)?),
            Request::Set { .. }
            | Request::Delete { .. }
            | Request::Close { .. }
            | Request::Multi(_) => check_open(self.allocator(), &self.slots, session, request),
        }
    }

    // a create's final path is taken where the parent has a child of its name
    #[tactic(auto, using(crate::proofs::Refusing::root_is_there, crate::proofs::Refusing::parent_is_missing, crate::proofs::Refusing::child_is_there, crate::proofs::Refusing::children_rise))]
    fn create_code(&self, path: &Path, seq: bool) -> Result<Option<Code>, NoMemory>
        ensures { IfOk result (λ c. c ≡ check_create (look self.now) path.now seq) }
    {
        let Some((parent, name)) = parent_and_name(path)? else {
            return Ok(Some(Code::NodeExists));
        };
        let Some(parent) = self.node(&parent) else {
            return Ok(Some(Code::NoNode));
        };
        let name = final_name(name, seq, parent.made)?;
        let taken = has_sorted(parent.names.as_slice(), &name);
        Ok(create_code(Some(parent), taken))
    }

    fn is_closed(&self, session: u32) -> bool
        ensures { result ≡ (look self.now).closed session }
    {
        'seeking: for closed in &self.closed {
            if *closed == session {
                return true;
            }
        }
        false
    }

    fn node(&self, path: &Path) -> Option<&Node>
        ensures { MatchOption result ((look self.now).node path.now ≡ None) (λ n. (look self.now).node path.now ≡ Some n.now) }
    {
        node_at(&self.slots, path)
    }
}
