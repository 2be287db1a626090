//! A client begins its next command.

ghost use Rattle.std.specs.Prelude.{◌≡◌, ◌<◌, ◌^◌, ◌-◌, ◌+◌, true, false, is_some, if◌then◌else◌, Option, None, Some, IfOk, OnOk};
ghost use Rattle.fk_print.specs.declared.op.Op.TheVariants as op;
ghost use Rattle.fk_queue.specs.Lanes.{is_session};
ghost use Rattle.fk_queue.specs.Meaning as post;
ghost use Rattle.fk_queue.specs.Posts.{post_of};
ghost use Rattle.fk_queue.specs.declared.lane.Lane.TheVariants as lane;
ghost use Rattle.fk_store.specs.Meaning as table;
ghost use Rattle.fk_tree.specs.Ask.{path_asked};
ghost use Rattle.fk_user.specs.Meaning.{called};
ghost use Rattle.fk_user.specs.Stored.{store_of};
ghost use Rattle.fk_watch.specs.Meaning.{Watches};
ghost use Rattle.fk_wire.specs.Limits.{IsLimitedRequest};
ghost use Rattle.fk_base.specs.Limits.{IsNumber};
ghost use Rattle.fk_wire.specs.declared.message.Tell.{Tell};
ghost use Rattle.fk_spec.specs.Client.{begin_asked, begin_op, is_unfit, joined, local_result};
ghost use Rattle.fk_client.specs.Wanted.{want_as};
ghost use Rattle.fk_client.specs.Acting.{GoesOn, KeepsTable, KeepsWatches, Prints};
ghost use Rattle.fk_client.specs.Beginning.{IsNextRead, IsNextWrite, OthersGoOn, Wants, posted, read_at};
ghost use Rattle.fk_client.specs.Fit.{IsLimitedAsk};
ghost use Rattle.fk_client.specs.Idle.{waits_next};
ghost use Rattle.fk_client.specs.Known.{by_outcome, kept_as, reading_in, unanswered};
ghost use Rattle.fk_client.specs.Meaning.{holding, next_ask};
ghost use Rattle.fk_client.specs.Operation.{failed_if, or_failed};
ghost use Rattle.fk_client.specs.Services.{post_by, user_by};
ghost use Rattle.fk_client.specs.Shown.{made_by};
ghost use Rattle.fk_client.specs.Sighting.{sight_by};
ghost use Rattle.fk_client.specs.Standing.{client_of};

use crate::client::Client;
use crate::lists::all_go_on;
use crate::reading::Reading;
use crate::registering::path_asked;
use crate::unanswered::{Outcome, Unanswered};
use crate::want::{Want, is_write, want_of};
use fk_base::{Bytes, Code, NoMemory, Path};
use fk_print::{Lines, Op, Shown};
use fk_queue::{Lane, Post, Posted};
use fk_tree::{Query, Request};
use fk_user::{UserRead, UserStore};
use fk_wire::{Sent, encode_send};
use std::alloc::Global;

// what a path shows, copied out of the storage, or none where that fails
fn read_record(user: &mut UserStore, path: &Path) -> Result<Option<Reading>, NoMemory>
    ensures reading { IfOk result (λ o. reading_in o ≡ read_at (store_of user.old) path.now) }
    ensures user { OnOk result (store_of user.new ≡ called (store_of user.old)) }
{
    match user.read(path) {
        UserRead::Failed => Ok(None),
        UserRead::Shown { node, stamp } => {
            let node = match node {
                None => None,
                Some(node) => Some(node.copy()?),
            };
            Ok(Some(Reading {
                node,
                stamp,
                looked: false,
            }))
        }
    }
}

// sends a request with what was seen, and gives its number, or none where the post fails
fn push_request(
    alloc: Global,
    post: &mut Post,
    session: u32,
    seen: u64,
    request: Request,
) -> Result<Option<u64>, NoMemory>
    requires session { is_session (post_of post.old).sessions session ≡ true }
    requires room { ((post_of post.old).lanes (lane.Session session)).given < 2 ^ 63 - 1 }
    requires seen { IsNumber seen }
    requires request { IsLimitedRequest request }
    ensures number { let q = post_of post.old in
        let k = (q.lanes (lane.Session session)).given + 1 in
        IfOk result (λ o. o ≡ (if q.armed then None else Some k)) }
    ensures post { OnOk result (
        post_of post.new ≡ posted session seen request (post_of post.old)) }
{
    let message = Sent { request, seen };
    let text = encode_send(alloc, &message)?;
    match post.push(Lane::Session(session), text.as_slice()) {
        Posted::At(k) => Ok(Some(k)),
        Posted::Failed => Ok(None),
        Posted::NoMemory => Err(NoMemory),
    }
}

// what the client itself answers
fn local_outcome(unfit: bool, seen: u64) -> Outcome
    ensures { result ≡ kept_as (local_result unfit seen) }
{
    if unfit {
        Outcome::Plain(Code::BadArguments)
    } else {
        Outcome::Expired { at: seen }
    }
}

impl Client {
    /// Whether there is no next command, or it has to wait.
    #[tactic(auto, unfolding(crate::specs::Standing::client_of))]
    pub(crate) fn waits(&self) -> bool
        ensures { result ≡ waits_next (client_of self.now) (next_ask (client_of self.now)) }
    {
        match self.next() {
            None => true,
            Some(command) => {
                if is_write(command) {
                    !all_go_on(self.commands.as_slice(), &self.sent)
                } else {
                    !self.sent.is_empty()
                }
            }
        }
    }

    /// It begins its next command.
    #[tactic(auto, unfolding(crate::specs::Standing::client_of), using(crate::proofs::Wants::begins, crate::proofs::Wants::wants, crate::proofs::Wants::others))]
    pub(crate) fn begin(
        &mut self,
        post: &mut Post,
        user: &mut UserStore,
    ) -> Result<(Op, Lines), NoMemory>
        requires begins { waits_next (client_of self.old) (next_ask (client_of self.old))
            ≡ false }
        requires free { self.old.reading ≡ None }
        requires session { is_session (post_of post.old).sessions self.old.session ≡ true }
        requires room { let requests = (post_of post.old).lanes (lane.Session self.old.session) in
            requests.given < 2 ^ 63 - 1 }
        requires seen { IsNumber self.old.seen }
        requires request { IsLimitedAsk (next_ask (client_of self.old)) }
        ensures op { let m = client_of self.old in
            let q = post_of post.old in
            let u = store_of user.old in
            (t : table.Meaning) (w : Watches) (told : Option Tell)
            → IfOk result (λ r. r.0 ≡ or_failed t q w u
            (begin_asked by_outcome (sight_by q w u told m) m.client (next_ask m))) }
        ensures lines { Prints result (client_of self.old) }
        ensures table { KeepsTable result }
        ensures watches { KeepsWatches result (client_of self.old) }
        ensures client { (w : Watches) (told : Option Tell) → IfOk result (λ r.
            client_of self.new
            ≡ made_by (post_of post.old) w (store_of user.old) told r.0 (client_of self.old)) }
        ensures post { IfOk result (λ r. post_of post.new
            ≡ post_by (client_of self.old) r.0 (post_of post.old)) }
        ensures user { IfOk result (λ r. store_of user.new ≡ user_by r.0 (store_of user.old)) }
    {
        let Some(command) = self.next() else {
            unreachable!();
        };
        let want = want_of(self.alloc, command)?;
        self.make(post, user, want)
    }

    // its next command, which wants this, is refused, sent or read
    #[tactic(auto, unfolding(crate::specs::Standing::client_of), using(crate::proofs::Wants::unfit, crate::proofs::Wants::unfit_write, crate::proofs::Wants::unfit_read, crate::proofs::Wants::writes, crate::proofs::Wants::reads, crate::proofs::Wants::limited, crate::proofs::Wants::some))]
    fn make(
        &mut self,
        post: &mut Post,
        user: &mut UserStore,
        want: Want,
    ) -> Result<(Op, Lines), NoMemory>
        requires wants { Wants (next_ask (client_of self.old)) (want_as want) }
        requires others { OthersGoOn (client_of self.old) }
        requires free { self.old.reading ≡ None }
        requires session { is_session (post_of post.old).sessions self.old.session ≡ true }
        requires room { let requests = (post_of post.old).lanes (lane.Session self.old.session) in
            requests.given < 2 ^ 63 - 1 }
        requires seen { IsNumber self.old.seen }
        requires request { IsLimitedAsk (next_ask (client_of self.old)) }
        ensures op { let m = client_of self.old in
            let q = post_of post.old in
            let u = store_of user.old in
            (t : table.Meaning) (w : Watches) (told : Option Tell)
            → IfOk result (λ r. r.0 ≡ or_failed t q w u (begin_op (sight_by q w u told m)
            (self.old.begun + 1) self.old.closed (want_as want))) }
        ensures lines { Prints result (client_of self.old) }
        ensures table { KeepsTable result }
        ensures watches { KeepsWatches result (client_of self.old) }
        ensures client { (w : Watches) (told : Option Tell) → IfOk result (λ r.
            client_of self.new
            ≡ made_by (post_of post.old) w (store_of user.old) told r.0 (client_of self.old)) }
        ensures post { IfOk result (λ r. post_of post.new
            ≡ post_by (client_of self.old) r.0 (post_of post.old)) }
        ensures user { IfOk result (λ r. store_of user.new ≡ user_by r.0 (store_of user.old)) }
    {
        match want {
            Want::Unfit => self.refuse(true),
            Want::Writes(request) => {
                if self.closed {
                    return self.refuse(false);
                }
                self.send(post, request)
            }
            Want::Reads(query, _) => {
                if self.closed {
                    return self.refuse(false);
                }
                self.read(user, path_asked(&query))
            }
        }
    }

    // its next command is sent or refused under this number
    #[tactic(auto, unfolding(crate::specs::Standing::client_of), using(crate::proofs::Waiting::front_more))]
    fn join(&mut self, k: u64, outcome: Outcome) -> Result<(), NoMemory>
        requires next { is_some (next_ask (client_of self.old)) ≡ true }
        requires others { OthersGoOn (client_of self.old) }
        requires free { self.old.reading ≡ None }
        ensures { let m = client_of self.old in
            let command = self.old.begun + 1 in
            OnOk result (client_of self.new
            ≡ holding (joined command (unanswered command k outcome) m.client) m) }
    {
        let command = self.place();
        self.sent.push(Unanswered {
            command,
            k,
            outcome,
        })?;
        self.begun = command;
        Ok(())
    }

    // it refuses its next command itself, which is unfit, or comes after its session was closed
    #[tactic(auto, unfolding(crate::specs::Standing::client_of))]
    fn refuse(&mut self, unfit: bool) -> Result<(Op, Lines), NoMemory>
        requires next { is_some (next_ask (client_of self.old)) ≡ true }
        requires unfit { is_unfit (next_ask (client_of self.old)) ≡ unfit }
        requires others { OthersGoOn (client_of self.old) }
        requires free { self.old.reading ≡ None }
        ensures op { IfOk result (λ r. r.0 ≡ op.Local self.old.session (self.old.begun + 1)) }
        ensures lines { Prints result (client_of self.old) }
        ensures table { KeepsTable result }
        ensures watches { KeepsWatches result (client_of self.old) }
        ensures client { GoesOn result (client_of self.old) (client_of self.new) }
    {
        let session = self.session;
        let command = self.place();
        self.join(0, local_outcome(unfit, self.seen))?;
        Ok((Op::Local { session, command }, Lines::new(self.alloc)))
    }

    // it sends its next command, a write; where the post fails it answers as if it had been sent
    #[tactic(auto, unfolding(crate::specs::Standing::client_of))]
    fn send(&mut self, post: &mut Post, request: Request) -> Result<(Op, Lines), NoMemory>
        requires next { IsNextWrite (next_ask (client_of self.old)) request }
        requires others { OthersGoOn (client_of self.old) }
        requires free { self.old.reading ≡ None }
        requires session { is_session (post_of post.old).sessions self.old.session ≡ true }
        requires room { let requests = (post_of post.old).lanes (lane.Session self.old.session) in
            requests.given < 2 ^ 63 - 1 }
        requires seen { IsNumber self.old.seen }
        requires request { IsLimitedRequest request }
        ensures op { let q = post_of post.old in
            let k = (q.lanes (lane.Session self.old.session)).given + 1 in
            IfOk result (λ r. r.0
            ≡ failed_if q.armed (op.Send self.old.session (self.old.begun + 1) k)) }
        ensures lines { Prints result (client_of self.old) }
        ensures table { KeepsTable result }
        ensures watches { KeepsWatches result (client_of self.old) }
        ensures client { GoesOn result (client_of self.old) (client_of self.new) }
        ensures post { IfOk result (λ r. post_of post.new
            ≡ post_by (client_of self.old) r.0 (post_of post.old)) }
    {
        let session = self.session;
        let command = self.place();
        match push_request(self.alloc, post, session, self.seen, request)? {
            Some(k) => {
                self.join(k, Outcome::Open)?;
                Ok((
                    Op::Send {
                        session,
                        command,
                        k,
                    },
                    Lines::new(self.alloc),
                ))
            }
            None => {
                self.join(0, Outcome::Plain(Code::ConnectionLoss))?;
                Ok((Op::SendFault { session, command }, Lines::new(self.alloc)))
            }
        }
    }

    // it makes its next command, a read of this path
    #[tactic(auto, unfolding(crate::specs::Standing::client_of))]
    fn read(&mut self, user: &mut UserStore, path: &Path) -> Result<(Op, Lines), NoMemory>
        requires next { IsNextRead (next_ask (client_of self.old)) path.now }
        requires free { self.old.reading ≡ None }
        ensures op { let u = store_of user.old in
            let stamp = (u.records path.now).stamp in
            IfOk result (λ r. r.0
            ≡ failed_if u.armed (op.Read self.old.session (self.old.begun + 1) stamp)) }
        ensures lines { Prints result (client_of self.old) }
        ensures table { KeepsTable result }
        ensures watches { KeepsWatches result (client_of self.old) }
        ensures client { let u = store_of user.old in
            (q : post.Meaning) (w : Watches) (told : Option Tell)
            → IfOk result (λ r.
            client_of self.new ≡ made_by q w u told r.0 (client_of self.old)) }
        ensures user { IfOk result (λ r. store_of user.new ≡ user_by r.0 (store_of user.old)) }
    {
        let session = self.session;
        let command = self.place();
        match read_record(user, path)? {
            None => {
                let lines = self.end(Shown::Plain(Code::SystemError))?;
                Ok((Op::ReadFault { session, command }, lines))
            }
            Some(reading) => {
                let stamp = reading.stamp;
                self.reading = Some(reading);
                Ok((
                    Op::Read {
                        session,
                        command,
                        stamp,
                    },
                    Lines::new(self.alloc),
                ))
            }
        }
    }
}
