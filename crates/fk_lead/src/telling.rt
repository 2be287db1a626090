//! A leader notifies the watches that its push fired, replies to the client, and acknowledges its
//! message.

ghost use Rattle.std.specs.Prelude.{◌≡◌, ◌+◌, ◌-◌, ◌<◌, ◌^◌, true, IfOk, OnOk};
ghost use Rattle.fk_print.specs.declared.op.Op.TheVariants as op;
ghost use Rattle.fk_print.specs.declared.op.Word.TheVariants as word;
ghost use Rattle.fk_queue.specs.Answers.{ack_of, after_ack};
ghost use Rattle.fk_queue.specs.Letters.{head_number};
ghost use Rattle.fk_queue.specs.Meaning.{has_lane};
ghost use Rattle.fk_queue.specs.Posts.{post_of};
ghost use Rattle.fk_queue.specs.declared.lane.Lane.TheVariants as lane;
ghost use Rattle.fk_spec.specs.Follower.{ack_op};
ghost use Rattle.fk_wire.specs.Fired.{AreLimitedFired};
ghost use Rattle.fk_base.specs.Limits.{IsNumber};
ghost use Rattle.fk_wire.specs.NoteText.{note_text};
ghost use Rattle.fk_wire.specs.Readable.{IsNoteReadable, IsTellReadable};
ghost use Rattle.fk_wire.specs.TellText.{tell_text};
ghost use Rattle.fk_wire.specs.declared.version.Version.TheVariants as version;
ghost use Rattle.fk_lead.specs.Next.{GoesOn, GoesOnAfter};
ghost use Rattle.fk_spec.specs.Failing.{or_fault};
ghost use Rattle.fk_stand.specs.Acks.{ack_by};
ghost use Rattle.fk_queue.specs.Meaning.{posted};
ghost use Rattle.fk_lead.specs.Services.{is_evict, note_of, reply_tell};
ghost use Rattle.fk_lead.specs.Standing.{leader_of};

use crate::leader::Leader;
use crate::state::State;
use fk_base::NoMemory;
use fk_print::{Op, Word};
use fk_queue::{Ack, Lane, Post, Posted};
use fk_tree::Request;
use fk_wire::{Note, Pushed, Tell, encode_note, encode_tell};

fn is_evict(request: &Request) -> bool
    ensures { result ≡ is_evict request.now }
{
    match request {
        Request::Close { evict } => *evict,
        Request::Create { .. } | Request::Set { .. } | Request::Delete { .. } | Request::Multi(_) =>
            false,
    }
}

// what a client is told of a push
fn reply_tell(tx: u64, push: &Pushed) -> Result<Tell, NoMemory>
    ensures { IfOk result (λ m. m ≡ reply_tell tx push.now) }
{
    if is_evict(&push.request) {
        return Ok(Tell::Evicted { k: push.k, tx });
    }
    Ok(Tell::Done {
        k: push.k,
        tx,
        name: push.name.copy()?,
        version: push.version,
        made: push.made.copy()?,
    })
}

impl Leader {
    /// It sends the fired watches to be told.
    #[tactic(auto, unfolding(crate::specs::Standing::leader_of))]
    pub(crate) fn notify(&mut self, post: &mut Post) -> Result<Op, NoMemory>
        requires tx { IsNumber self.old.tx }
        requires fired { AreLimitedFired self.old.fired }
        requires room { ((post_of post.old).lanes lane.Watch).given < 2 ^ 63 - 1 }
        ensures op { let q = post_of post.old in
            IfOk result (λ o. o ≡ or_fault q.armed self.old.inv word.Notify
            (op.Notify self.old.inv self.old.tx ((q.lanes lane.Watch).given + 1))) }
        ensures leader { GoesOn result (leader_of self.old) (leader_of self.new) }
        ensures post { let text = note_text version.Two (note_of (leader_of self.old)) in
            OnOk result (post_of post.new ≡ posted lane.Watch text (post_of post.old)) }
        ensures sent { OnOk result (IsNoteReadable (note_of (leader_of self.old))) }
    {
        let note = Note {
            tx: self.tx,
            fired: self.fired.copy()?,
        };
        let text = encode_note(self.alloc, &note)?;
        match post.push(Lane::Watch, text.as_slice()) {
            Posted::At(note) => {
                self.state = State::Reply;
                Ok(Op::Notify {
                    function: self.inv,
                    tx: self.tx,
                    note,
                })
            }
            Posted::Failed => Ok(self.fail(Word::Notify)),
            Posted::NoMemory => Err(NoMemory),
        }
    }

    /// It tells the client.
    #[tactic(auto, unfolding(crate::specs::Standing::leader_of))]
    pub(crate) fn reply(&mut self, post: &mut Post) -> Result<Op, NoMemory>
        requires tx { IsNumber self.old.tx }
        requires k { IsNumber self.old.message.k }
        requires lane { has_lane (post_of post.old) (lane.Inbox self.old.message.session) ≡ true }
        requires room { let inbox = lane.Inbox self.old.message.session in
            ((post_of post.old).lanes inbox).given < 2 ^ 63 - 1 }
        ensures op { IfOk result (λ o.
            o ≡ or_fault (post_of post.old).armed self.old.inv word.Reply
            (op.Reply self.old.inv self.old.message.session self.old.message.k)) }
        ensures leader { GoesOn result (leader_of self.old) (leader_of self.new) }
        ensures post { let inbox = lane.Inbox self.old.message.session in
            let text = tell_text version.Two (reply_tell self.old.tx self.old.message) in
            OnOk result (post_of post.new ≡ posted inbox text (post_of post.old)) }
        ensures sent { OnOk result (IsTellReadable (reply_tell self.old.tx self.old.message)) }
    {
        let tell = reply_tell(self.tx, self.message.get())?;
        let text = encode_tell(self.alloc, &tell)?;
        match post.push(Lane::Inbox(self.message.get().session), text.as_slice()) {
            Posted::At(_) => {
                self.state = State::Done;
                Ok(Op::Reply {
                    function: self.inv,
                    session: self.message.get().session,
                    k: self.message.get().k,
                })
            }
            Posted::Failed => Ok(self.fail(Word::Reply)),
            Posted::NoMemory => Err(NoMemory),
        }
    }
}

impl Leader {
    /// It removes its message, where that is its lane's head, and ends.
    #[tactic(auto, unfolding(crate::specs::Standing::leader_of), using(fk_stand::proofs::Acks::ack_said))]
    pub(crate) fn ack(&mut self, post: &mut Post) -> Op
        ensures op { let q = post_of post.old in
            result ≡ or_fault q.armed self.old.inv word.Ack
            (ack_op self.old.inv self.old.tx (head_number (q.lanes lane.Leader))) }
        ensures leader { GoesOnAfter result (leader_of self.old) (leader_of self.new) }
        ensures post { let q = post_of post.old in
            post_of post.new ≡ after_ack q lane.Leader (ack_of q lane.Leader self.old.tx) }
    {
        let answer = post.ack(Lane::Leader, self.tx);
        self.acked(answer)
    }

    #[tactic(auto, unfolding(crate::specs::Standing::leader_of))]
    fn acked(&mut self, answer: Ack) -> Op
        ensures op { result ≡ ack_by self.old.inv answer }
        ensures leader { GoesOnAfter result (leader_of self.old) (leader_of self.new) }
    {
        self.state = State::Ended;
        match answer {
            Ack::Acked => Op::AckOk { function: self.inv },
            Ack::NotHead => Op::AckGone { function: self.inv },
            Ack::Failed => Op::Fault {
                function: self.inv,
                word: Word::Ack,
            },
        }
    }
}
