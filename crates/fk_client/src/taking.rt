//! A client takes the message at the head of its inbox.

ghost use Rattle.std.specs.Prelude.{◌≡◌, [], true, if◌then◌else◌, is_some, None, Some, IfOk, OnOk};
ghost use Rattle.fk_queue.specs.Lanes.{is_session};
ghost use Rattle.fk_queue.specs.Letters.{head_bytes, head_number};
ghost use Rattle.fk_queue.specs.Meaning.{has_lane};
ghost use Rattle.fk_queue.specs.Posts.{post_of};
ghost use Rattle.fk_queue.specs.declared.lane.Lane.{Lane};
ghost use Rattle.fk_queue.specs.declared.lane.Lane.TheVariants as lane;
ghost use Rattle.fk_wire.specs.declared.message.Tell.{Tell};
ghost use Rattle.fk_spec.specs.Client.{contains, evicted, notified, settle_with, take_op, without_reading};
ghost use Rattle.fk_spec.specs.Replies.{expired_lines, notice_of};
ghost use Rattle.fk_client.specs.Acting.{GoesOnAt, KeepsTable, KeepsUser, KeepsWatches, PrintsOf};
ghost use Rattle.fk_client.specs.Known.{by_outcome};
ghost use Rattle.fk_client.specs.Meaning.{holding};
ghost use Rattle.fk_client.specs.Operation.{failed_if};
ghost use Rattle.fk_client.specs.Services.{post_by};
ghost use Rattle.fk_client.specs.Shown.{seeing};
ghost use Rattle.fk_client.specs.Sighting.{message_told};
ghost use Rattle.fk_watch.specs.Notes.{firing_as};
ghost use Rattle.fk_client.specs.Standing.{client_of};
ghost use Rattle.fk_client.specs.Told.{IsReadable, IsTold};

use crate::client::Client;
use crate::lists::{contains, forget};
use crate::printing::print;
use crate::unanswered::Outcome;
use fk_base::NoMemory;
use fk_print::{Line, Lines, Op};
use fk_queue::{Ack, Lane, Post};
use fk_wire::{Fired, Reader, Tell, tell_of};
use std::alloc::Global;

/// Reads the text of the message at the head of a lane.
pub fn read_head(post: &Post, lane: Lane, reader: &mut Reader) -> Result<(), NoMemory>
    requires lane { has_lane (post_of post.now) lane ≡ true }
    requires head { is_some (head_number ((post_of post.now).lanes lane)) ≡ true }
    ensures { OnOk result (reader.new.text.items
        ≡ head_bytes ((post_of post.now).lanes lane)) }
{
    reader.text.resize(post.head_len(lane), 0)?;
    post.copy_head(lane, reader.text.as_mut_slice());
    Ok(())
}

// the message at the head of a lane
fn head_message(
    alloc: Global,
    post: &Post,
    lane: Lane,
    reader: &mut Reader,
) -> Result<Tell, NoMemory>
    requires lane { has_lane (post_of post.now) lane ≡ true }
    requires head { is_some (head_number ((post_of post.now).lanes lane)) ≡ true }
    requires readable { IsReadable ((post_of post.now).lanes lane).waiting }
    ensures { (m : Tell) → IsTold ((post_of post.now).lanes lane).waiting (Some m)
        → IfOk result (λ n. n ≡ m) }
{
    read_head(post, lane, reader)?;
    tell_of(alloc, reader)
}

impl Client {
    /// It takes the message at the head of its inbox, which has this number.
    #[tactic(auto, unfolding(crate::specs::Standing::client_of))]
    pub(crate) fn take(&mut self, post: &mut Post, number: u64) -> Result<(Op, Lines), NoMemory>
        requires owed { self.old.owed ≡ None }
        requires session { is_session (post_of post.old).sessions self.old.session ≡ true }
        requires head { let inbox = (post_of post.old).lanes (lane.Inbox self.old.session) in
            head_number inbox ≡ Some number }
        requires readable { let inbox = (post_of post.old).lanes (lane.Inbox self.old.session) in
            IsReadable inbox.waiting }
        ensures op { let q = post_of post.old in
            (told : Tell) → IsTold (q.lanes (lane.Inbox self.old.session)).waiting (Some told)
            → IfOk result (λ r. r.0
            ≡ failed_if q.armed (take_op self.old.session (message_told told))) }
        ensures lines { let inbox = (post_of post.old).lanes (lane.Inbox self.old.session) in
            (told : Tell) → IsTold inbox.waiting (Some told)
            → PrintsOf told result (client_of self.old) }
        ensures client { let inbox = (post_of post.old).lanes (lane.Inbox self.old.session) in
            (told : Tell) → IsTold inbox.waiting (Some told)
            → GoesOnAt told result (client_of self.old) (client_of self.new) }
        ensures post { IfOk result (λ r. post_of post.new
            ≡ post_by (client_of self.old) r.0 (post_of post.old)) }
        ensures table { KeepsTable result }
        ensures watches { KeepsWatches result (client_of self.old) }
        ensures user { KeepsUser result }
    {
        let lane = Lane::Inbox(self.session);
        let message = head_message(self.alloc, post, lane, &mut self.reader)?;
        match post.ack(lane, number) {
            Ack::Acked => self.told(message),
            Ack::NotHead => unreachable!(),
            Ack::Failed => Ok((
                Op::TakeFault {
                    session: self.session,
                },
                Lines::new(self.alloc),
            )),
        }
    }

    // it is told a message; a read that isn't answered is given up
    #[tactic(auto, unfolding(crate::specs::Standing::client_of))]
    fn told(&mut self, message: Tell) -> Result<(Op, Lines), NoMemory>
        requires owed { self.old.owed ≡ None }
        ensures op { IfOk result (λ r. r.0 ≡ take_op self.old.session (message_told message)) }
        ensures table { KeepsTable result }
        ensures watches { KeepsWatches result (client_of self.old) }
        ensures user { KeepsUser result }
        ensures lines { PrintsOf message result (client_of self.old) }
        ensures client { GoesOnAt message result (client_of self.old) (client_of self.new) }
    {
        let session = self.session;
        match message {
            Tell::Done {
                k,
                tx,
                name,
                version,
                made,
            } => {
                self.settle(
                    k,
                    Outcome::Done {
                        tx,
                        name,
                        version,
                        made,
                    },
                );
                Ok((Op::TakeDone { session, k, tx }, Lines::new(self.alloc)))
            }
            Tell::Evicted { k, tx } => {
                let lines = self.evict(tx)?;
                Ok((Op::TakeEvicted { session, k, tx }, lines))
            }
            Tell::Refused { k, code, at, place } => {
                self.settle(k, Outcome::Refused { code, at, place });
                Ok((Op::TakeRefused { session, k }, Lines::new(self.alloc)))
            }
            Tell::Lost {
                k,
                path,
                own,
                found,
                moment,
            } => {
                self.settle(
                    k,
                    Outcome::Lost {
                        path,
                        own,
                        found,
                        moment,
                    },
                );
                Ok((Op::TakeLost { session, k }, Lines::new(self.alloc)))
            }
            Tell::Watch { tx, fired } => {
                let watch = fired.id;
                let lines = self.notice(tx, fired)?;
                Ok((Op::TakeWatch { session, watch }, lines))
            }
            Tell::Ping(ping) => {
                self.give_up();
                self.owed = if self.closed { None } else { Some(ping) };
                Ok((Op::TakePing { session, ping }, Lines::new(self.alloc)))
            }
        }
    }

    #[tactic(auto, unfolding(crate::specs::Standing::client_of), using(crate::proofs::Waiting::front_told))]
    fn settle(&mut self, k: u64, outcome: Outcome)
        ensures { let m = client_of self.old in
            client_of self.new ≡ seeing [] (settle_with by_outcome k (Some outcome) m.client) m }
    {
        self.sent.settle(k, outcome);
        self.give_up();
    }

    // a read that isn't answered is given up
    #[tactic(auto, unfolding(crate::specs::Standing::client_of))]
    fn give_up(&mut self)
        ensures { let m = client_of self.old in
            client_of self.new ≡ holding (without_reading m.client) m }
    {
        self.reading = None;
    }

    // its session was evicted, which it prints where it didn't know that the session is closed
    #[tactic(auto, unfolding(crate::specs::Standing::client_of))]
    fn evict(&mut self, tx: u64) -> Result<Lines, NoMemory>
        ensures lines { IfOk result (λ ls.
            ls ≡ expired_lines self.old.closed self.old.session tx) }
        ensures client { let m = client_of self.old in
            IfOk result (λ ls. client_of self.new ≡ seeing ls (evicted m.client) m) }
    {
        let mut lines = Lines::new(self.alloc);
        self.held = Vec::new(self.alloc);
        self.give_up();
        if self.closed {
            return Ok(lines);
        }
        self.closed = true;
        let line = Line::Expired {
            session: self.session,
            tx,
        };
        print(self.session, &mut self.seen, &mut lines, line)?;
        Ok(lines)
    }

    // a watch fired, which it prints where it holds the watch
    #[tactic(auto, unfolding(crate::specs::Standing::client_of))]
    fn notice(&mut self, tx: u64, fired: Fired) -> Result<Lines, NoMemory>
        ensures lines { let notice = notice_of self.old.session (Some (firing_as tx fired)) in
            IfOk result (λ ls. ls
            ≡ (if contains fired.id self.old.held.items then notice else [])) }
        ensures client { let m = client_of self.old in
            IfOk result (λ ls. client_of self.new ≡ seeing ls (notified fired.id m.client) m) }
    {
        let mut lines = Lines::new(self.alloc);
        let is_held = contains(self.held.as_slice(), fired.id);
        self.give_up();
        forget(&mut self.held, fired.id);
        if !is_held {
            return Ok(lines);
        }
        let line = Line::Notice {
            session: self.session,
            tx,
            kind: fired.kind,
            change: fired.change,
            path: fired.path,
        };
        print(self.session, &mut self.seen, &mut lines, line)?;
        Ok(lines)
    }
}
