//! A follower pushes its request to the leader.

ghost use Rattle.std.specs.Prelude.{◌≡◌, ◌+◌, ◌-◌, ◌<◌, ◌^◌, List, IfOk, OnOk};
ghost use Rattle.fk_base.specs.Path.{PathNames};
ghost use Rattle.std.specs.Option.{option_copied};
ghost use Rattle.fk_print.specs.declared.op.Op.TheVariants as op;
ghost use Rattle.fk_print.specs.declared.op.Word.TheVariants as word;
ghost use Rattle.fk_queue.specs.Posts.{post_of};
ghost use Rattle.fk_queue.specs.declared.lane.Lane.TheVariants as lane;
ghost use Rattle.fk_store.specs.Meaning.{Meaning};
ghost use Rattle.fk_tree.specs.Rows.{is_of};
ghost use Rattle.fk_tree.specs.Shown.{rows_view};
ghost use Rattle.fk_spec.specs.Follower.{view_of};
ghost use Rattle.fk_spec.specs.Stored.{owned_among};
ghost use Rattle.fk_wire.specs.Limits.{IsLimitedRequest};
ghost use Rattle.fk_base.specs.Limits.{IsNumber};
ghost use Rattle.fk_wire.specs.PushedText.{pushed_text};
ghost use Rattle.fk_wire.specs.Readable.{IsPushedReadable};
ghost use Rattle.fk_wire.specs.declared.version.Version.TheVariants as version;
ghost use Rattle.fk_follow.specs.Next.{next_with};
ghost use Rattle.fk_spec.specs.Failing.{or_fault};
ghost use Rattle.fk_queue.specs.Meaning.{posted};
ghost use Rattle.fk_follow.specs.Services.{push_at};
ghost use Rattle.fk_stand.specs.Messages.{gone_of};
ghost use Rattle.fk_follow.specs.Standing.{follower_of};

use crate::deciding::rows_of;
use crate::follower::Follower;
use crate::state::State;
use fk_base::{NoMemory, Path, Paths};
use fk_print::{Op, Word};
use fk_queue::{Lane, Post, Posted};
use fk_tree::{Node, Request, Rows};
use fk_wire::{Pushed, encode_pushed};
use std::alloc::Global;

fn is_owned_by(session: u32, node: Option<&Node>) -> bool
    ensures { result ≡ is_of session (option_copied node.entry) }
{
    match node {
        None => false,
        Some(node) => node.owner == session,
    }
}

// those of the paths whose node in the rows has this owner
fn owned_among(alloc: Global, session: u32, rows: &Rows, paths: &[Path]) -> Result<Paths, NoMemory>
    ensures { IfOk result (λ ps. ps ≡ owned_among session (rows_view rows.now) paths.now) }
{
    let mut owned = Paths::new(alloc);
    'choosing: for path in paths {
        if is_owned_by(session, rows.node(path)) {
            owned.push(path.copy()?)?;
        }
    }
    Ok(owned)
}

impl Follower {
    // of the nodes that its session owned, those that a close removes
    #[tactic(auto, unfolding(crate::specs::Standing::follower_of))]
    fn gone(&self, rows: &Rows) -> Result<Paths, NoMemory>
        requires { rows_view rows.now ≡ view_of (follower_of self.now).follower.granted }
        ensures { let f = (follower_of self.now).follower in
            IfOk result (λ ps. ps ≡ gone_of f self.now.message.request) }
    {
        match &self.message.request {
            Request::Close { .. } => {
                owned_among(self.alloc, self.session, rows, self.owned.paths())
            }
            Request::Create { .. }
            | Request::Set { .. }
            | Request::Delete { .. }
            | Request::Multi(_) => Ok(Paths::new(self.alloc)),
        }
    }

    /// What it pushes at a moment.
    #[tactic(auto, unfolding(crate::specs::Standing::follower_of))]
    pub(crate) fn pushed(&self, moment: u64) -> Result<Pushed, NoMemory>
        ensures { IfOk result (λ x. x ≡ push_at moment (follower_of self.now)) }
    {
        let request = &self.message.request;
        let rows = rows_of(self.alloc, self.granted.as_slice())?;
        Ok(Pushed {
            session: self.session,
            k: self.k,
            inv: self.inv,
            moment,
            request: request.copy()?,
            name: rows.name(request)?,
            version: rows.version(request),
            gone: self.gone(&rows)?,
            made: rows.made(self.session, request)?,
            paths: self.paths()?,
        })
    }

    /// It pushes its request.
    #[tactic(auto, unfolding(crate::specs::Standing::follower_of))]
    pub(crate) fn push(&mut self, post: &mut Post, now: u64) -> Result<Op, NoMemory>
        requires inv { IsNumber self.old.inv }
        requires k { IsNumber self.old.k }
        requires now { IsNumber now }
        requires request { IsLimitedRequest self.old.message.request }
        requires room { ((post_of post.old).lanes lane.Leader).given < 2 ^ 63 - 1 }
        ensures op { let q = post_of post.old in
            IfOk result (λ o. o ≡ or_fault q.armed self.old.inv word.Push
            (op.Push self.old.inv ((q.lanes lane.Leader).given + 1))) }
        ensures follower { (t : Meaning) (owned : List PathNames)
            → IfOk result (λ o. follower_of self.new
            ≡ next_with t owned now o (follower_of self.old)) }
        ensures post { let text = pushed_text version.Two (push_at now (follower_of self.old)) in
            OnOk result (post_of post.new ≡ posted lane.Leader text (post_of post.old)) }
        ensures sent { OnOk result (IsPushedReadable (push_at now (follower_of self.old))) }
    {
        let push = self.pushed(now)?;
        let text = encode_pushed(self.alloc, &push)?;
        match post.push(Lane::Leader, text.as_slice()) {
            Posted::At(tx) => {
                self.state = State::Commit { tx, moment: now };
                Ok(Op::Push {
                    function: self.inv,
                    tx,
                })
            }
            Posted::Failed => Ok(self.fail(Word::Push)),
            Posted::NoMemory => Err(NoMemory),
        }
    }
}
