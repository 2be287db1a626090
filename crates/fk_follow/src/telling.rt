//! A follower tells its client what was kept of the request, and acknowledges its message.

ghost use Rattle.std.specs.Prelude.{◌≡◌, ◌-◌, ◌<◌, ◌^◌, true, Some, IfOk, OnOk};
ghost use Rattle.fk_print.specs.declared.op.Op.TheVariants as op;
ghost use Rattle.fk_print.specs.declared.op.Word.TheVariants as word;
ghost use Rattle.fk_queue.specs.Answers.{ack_of, after_ack};
ghost use Rattle.fk_queue.specs.Letters.{head_number};
ghost use Rattle.fk_queue.specs.Meaning.{has_lane};
ghost use Rattle.fk_queue.specs.Posts.{post_of};
ghost use Rattle.fk_queue.specs.declared.lane.Lane.TheVariants as lane;
ghost use Rattle.fk_spec.specs.Follower.{ack_op};
ghost use Rattle.fk_base.specs.Limits.{IsNumber};
ghost use Rattle.fk_follow.specs.Fit.{IsLimitedOutcome};
ghost use Rattle.fk_follow.specs.Next.{GoesOn, GoesOnAfter};
ghost use Rattle.fk_spec.specs.Failing.{or_fault};
ghost use Rattle.fk_stand.specs.Acks.{ack_by};
ghost use Rattle.fk_follow.specs.Sending.{IsToldReadable};
ghost use Rattle.fk_follow.specs.Services.{told};
ghost use Rattle.fk_stand.specs.Messages.{outcome_tell};
ghost use Rattle.fk_follow.specs.Standing.{follower_of, outcome_of};

use crate::follower::Follower;
use crate::state::{Kept, State};
use fk_base::NoMemory;
use fk_print::{Op, Word};
use fk_queue::{Ack, Lane, Post, Posted};
use fk_wire::{Tell, encode_tell};

fn tell_of(k: u64, kept: Kept) -> Tell
    ensures { outcome_tell k (outcome_of kept) ≡ Some result }
{
    match kept {
        Kept::Refused { code, at, place } => Tell::Refused { k, code, at, place },
        Kept::Lost {
            path,
            own,
            found,
            moment,
        } => Tell::Lost {
            k,
            path,
            own,
            found,
            moment,
        },
    }
}

impl Follower {
    /// It tells what was kept.
    #[tactic(auto, unfolding(crate::specs::Standing::follower_of))]
    pub(crate) fn reply(&mut self, post: &mut Post, kept: Kept) -> Result<Op, NoMemory>
        requires k { IsNumber self.old.k }
        requires limits { IsLimitedOutcome (outcome_of kept) }
        requires lane { has_lane (post_of post.old) (lane.Inbox self.old.session) ≡ true }
        requires room { let inbox = (post_of post.old).lanes (lane.Inbox self.old.session) in
            inbox.given < 2 ^ 63 - 1 }
        ensures op { IfOk result (λ o. o ≡ or_fault (post_of post.old).armed self.old.inv word.Reply
            (op.Reply self.old.inv self.old.session self.old.k)) }
        ensures follower { GoesOn result (follower_of self.old) (follower_of self.new) }
        ensures post { let tell = outcome_tell self.old.k (outcome_of kept) in
            OnOk result (post_of post.new ≡ told self.old.session tell (post_of post.old)) }
        ensures sent { OnOk result (IsToldReadable (outcome_tell self.old.k (outcome_of kept))) }
    {
        let tell = tell_of(self.k, kept);
        let text = encode_tell(self.alloc, &tell)?;
        match post.push(Lane::Inbox(self.session), text.as_slice()) {
            Posted::At(_) => {
                self.state = State::Ack;
                Ok(Op::Reply {
                    function: self.inv,
                    session: self.session,
                    k: self.k,
                })
            }
            Posted::Failed => Ok(self.fail(Word::Reply)),
            Posted::NoMemory => Err(NoMemory),
        }
    }

    /// It removes its message, where that is its lane's head, and ends.
    #[tactic(auto, unfolding(crate::specs::Standing::follower_of), using(fk_stand::proofs::Acks::ack_said))]
    pub(crate) fn ack(&mut self, post: &mut Post) -> Op
        requires { has_lane (post_of post.old) (lane.Session self.old.session) ≡ true }
        ensures op { let q = post_of post.old in
            let head = head_number (q.lanes (lane.Session self.old.session)) in
            result ≡ or_fault q.armed self.old.inv word.Ack (ack_op self.old.inv self.old.k head) }
        ensures follower { GoesOnAfter result (follower_of self.old) (follower_of self.new) }
        ensures post { let q = post_of post.old in
            let own = lane.Session self.old.session in
            post_of post.new ≡ after_ack q own (ack_of q own self.old.k) }
    {
        let answer = post.ack(Lane::Session(self.session), self.k);
        self.acked(answer)
    }

    #[tactic(auto, unfolding(crate::specs::Standing::follower_of))]
    fn acked(&mut self, answer: Ack) -> Op
        ensures op { result ≡ ack_by self.old.inv answer }
        ensures follower { GoesOnAfter result (follower_of self.old) (follower_of self.new) }
    {
        self.state = State::Ended;
        match answer {
            Ack::Acked => Op::AckOk { function: self.inv },
            Ack::NotHead => Op::AckGone { function: self.inv },
            Ack::Failed => Op::Fault {
                function: self.inv,
                word: Word::Ack,
            },
        }
    }
}
