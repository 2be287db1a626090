//! The heartbeat of a session.

ghost use Rattle.std.specs.Prelude.{◌≡◌, ◌≢◌, ◌+◌, ◌-◌, ◌<◌, ◌^◌, nat_lt, true, is_some, IfOk, OnOk};
ghost use Rattle.fk_print.specs.declared.op.Op.TheVariants as op;
ghost use Rattle.fk_print.specs.declared.op.Word.TheVariants as word;
ghost use Rattle.fk_queue.specs.Meaning.{has_lane, posted};
ghost use Rattle.fk_queue.specs.Posts.{post_of};
ghost use Rattle.fk_queue.specs.declared.lane.Lane.TheVariants as lane;
ghost use Rattle.fk_settle.specs.Transaction.{transacted};
ghost use Rattle.fk_spec.specs.Failing.{or_fault};
ghost use Rattle.fk_spec.specs.Heartbeat as stage;
ghost use Rattle.fk_store.specs.Conds.{session_of};
ghost use Rattle.fk_store.specs.Meaning.{called};
ghost use Rattle.fk_store.specs.declared.answer.Transact.TheVariants as transact;
ghost use Rattle.fk_base.specs.Limits.{IsNumber};
ghost use Rattle.fk_wire.specs.SentText.{IsSent, sent_text};
ghost use Rattle.fk_wire.specs.TellText.{IsTell, tell_text};
ghost use Rattle.fk_wire.specs.declared.message.Tell.TheVariants as tell;
ghost use Rattle.fk_wire.specs.declared.version.Version.TheVariants as version;
ghost use Rattle.fk_watch.specs.Beating.{evict_sent, going_to, is_ended, next_with, note_conds, note_op, note_writes, probe_op, started};
ghost use Rattle.fk_watch.specs.BeatingFit.{IsFit};
ghost use Rattle.fk_watch.specs.BeatingStanding.{beat_of};
ghost use Rattle.fk_watch.specs.BeatingSteps.{Steps, services_of};
ghost use Rattle.fk_watch.specs.BeatingSaid.{note_by};

use fk_base::NoMemory;
use fk_print::{Op, Word};
use fk_queue::{Lane, Post, Posted};
use fk_store::{Cond, Found, Seen, SessionRecord, Table, Transact, Write};
use fk_tree::Request;
use fk_wire::{Sent, Tell, encode_send, encode_tell};
use std::alloc::Global;

/// The operation before which a heartbeat stands.
#[derive(Clone, Copy)]
pub enum BeatState {
    Probe,
    Ping,
    Note,
    Evict,
    Ended,
}

/// A function that pings a session, or evicts it where it didn't answer in time: it makes one
/// operation per step, on the services that it is lent.
#[derive(Drop)]
pub struct Beat {
    alloc: Global,
    inv: u64,
    session: u32,
    state: BeatState,
}

/// Whether a moment is more than `beat` after another.
fn is_late(moment: u64, beat: u64, now: u64) -> bool
    ensures { result ≡ nat_lt (moment + beat) now }
{
    now > moment && now - moment > beat
}

impl Beat {
    /// A heartbeat of invocation `inv` that starts on a session.
    #[tactic(auto, unfolding(crate::specs::BeatingStanding::beat_of))]
    pub fn start(alloc: Global, inv: u64, session: u32) -> Beat
        ensures { beat_of result ≡ started inv session }
    {
        Beat {
            alloc,
            inv,
            session,
            state: BeatState::Probe,
        }
    }

    /// Whether it makes no more operations.
    #[tactic(auto, unfolding(crate::specs::BeatingStanding::beat_of))]
    pub fn ended(&self) -> bool
        ensures { result ≡ is_ended (beat_of self.now) }
    {
        match self.state {
            BeatState::Ended => true,
            BeatState::Probe | BeatState::Ping | BeatState::Note | BeatState::Evict => false,
        }
    }

    /// Makes the operation before which it stands, with one call of one of the services, and gives
    /// its line; a ping is late once `beat` has passed. After `NoMemory` neither the heartbeat nor
    /// the services are to be used further.
    #[tactic(auto, unfolding(crate::specs::BeatingStanding::beat_of))]
    pub fn step<T: Table>(
        &mut self,
        table: &mut T,
        post: &mut Post,
        now: u64,
        beat: u64,
    ) -> Result<Op, NoMemory>
        requires { IsFit (T.meaning table.old) (post_of post.old) (beat_of self.old) }
        ensures { IfOk result (λ o. Steps
            (services_of (T.meaning table.old) post.old)
            (services_of (T.meaning table.new) post.new)
            (beat_of self.old) (beat_of self.new) now beat o) }
    {
        match self.state {
            BeatState::Probe => Ok(self.probe(table, now, beat)),
            BeatState::Ping => self.ping(post),
            BeatState::Note => self.note(table, now),
            BeatState::Evict => self.evict(post),
            BeatState::Ended => Ok(Op::Idle),
        }
    }

    // its operation failed, and it ends
    #[tactic(auto, unfolding(crate::specs::BeatingStanding::beat_of))]
    fn fail(&mut self, word: Word) -> Op
        ensures op { result ≡ op.Fault self.old.inv word }
        ensures heartbeat { beat_of self.new ≡ going_to stage.Ended (beat_of self.old) }
    {
        self.state = BeatState::Ended;
        Op::Fault {
            function: self.inv,
            word,
        }
    }
}

impl Beat {
    // it looks at its session's record
    #[tactic(auto, unfolding(crate::specs::BeatingStanding::beat_of))]
    fn probe<T: Table>(&mut self, table: &mut T, now: u64, beat: u64) -> Op
        requires { is_some ((T.meaning table.old).sessions self.old.session) ≡ true }
        ensures op { let t = T.meaning table.old in
            result ≡ or_fault t.armed self.old.inv word.Probe
            (probe_op self.old.inv now beat (session_of t self.old.session)) }
        ensures heartbeat { beat_of self.new ≡ next_with result (beat_of self.old) }
        ensures table { T.meaning table.new ≡ called (T.meaning table.old) }
    {
        match table.session(self.session) {
            Seen::Here(kept) => self.probed(kept, now, beat),
            Seen::Missing => unreachable!(),
            Seen::Failed => self.fail(Word::Probe),
        }
    }

    // what it found in its session's record
    #[tactic(auto, unfolding(crate::specs::BeatingStanding::beat_of))]
    fn probed(&mut self, kept: &SessionRecord, now: u64, beat: u64) -> Op
        ensures op { result ≡ probe_op self.old.inv now beat kept.now }
        ensures heartbeat { beat_of self.new ≡ next_with result (beat_of self.old) }
    {
        let function = self.inv;
        self.state = BeatState::Ended;
        if kept.closed {
            return Op::ProbeClosed { function };
        }
        if kept.ping <= kept.pong {
            self.state = BeatState::Ping;
            return Op::ProbeFresh { function };
        }
        if is_late(kept.ping_at, beat, now) {
            self.state = BeatState::Evict;
            return Op::ProbeLate {
                function,
                ping: kept.ping,
                moment: kept.ping_at,
            };
        }
        Op::ProbeWaiting { function }
    }
}

impl Beat {
    // it asks its session's client whether it lives
    #[tactic(auto, unfolding(crate::specs::BeatingStanding::beat_of))]
    fn ping(&mut self, post: &mut Post) -> Result<Op, NoMemory>
        requires inv { IsNumber self.old.inv }
        requires lane { has_lane (post_of post.old) (lane.Inbox self.old.session) ≡ true }
        requires room { let inbox = (post_of post.old).lanes (lane.Inbox self.old.session) in
            inbox.given < 2 ^ 63 - 1 }
        ensures op { IfOk result (λ o.
            o ≡ or_fault (post_of post.old).armed self.old.inv word.Ping
            (op.Ping self.old.inv self.old.session)) }
        ensures heartbeat { IfOk result (λ o.
            beat_of self.new ≡ next_with o (beat_of self.old)) }
        ensures post { let text = tell_text version.Two (tell.Ping self.old.inv) in
            OnOk result (post_of post.new
            ≡ posted (lane.Inbox self.old.session) text (post_of post.old)) }
        ensures readable { OnOk result (IsTell (tell.Ping self.old.inv)) }
    {
        let text = encode_tell(self.alloc, &Tell::Ping(self.inv))?;
        match post.push(Lane::Inbox(self.session), text.as_slice()) {
            Posted::At(_) => {
                self.state = BeatState::Note;
                Ok(Op::Ping {
                    function: self.inv,
                    session: self.session,
                })
            }
            Posted::Failed => Ok(self.fail(Word::Ping)),
            Posted::NoMemory => Err(NoMemory),
        }
    }

    // it notes its ping
    #[tactic(auto, unfolding(crate::specs::BeatingStanding::beat_of), using(crate::proofs::BeatingAnswers::note_said, fk_settle::proofs::Verdicts::transacted_is))]
    fn note<T: Table>(&mut self, table: &mut T, now: u64) -> Result<Op, NoMemory>
        requires { is_some ((T.meaning table.old).sessions self.old.session) ≡ true }
        ensures op { let t = T.meaning table.old in
            IfOk result (λ o. o ≡ or_fault t.armed self.old.inv word.Note
            (note_op self.old.inv (session_of t self.old.session))) }
        ensures heartbeat { IfOk result (λ o.
            beat_of self.new ≡ next_with o (beat_of self.old)) }
        ensures table { let conds = note_conds self.old.inv self.old.session in
            let writes = note_writes self.old.inv self.old.session now in
            OnOk result (T.meaning table.new ≡ transacted conds writes (T.meaning table.old)) }
    {
        let session = self.session;
        let n = self.inv;
        let answer = table.transact(
            &[Cond::PingBelow { session, n }],
            &[Write::Ping {
                session,
                n,
                moment: now,
            }],
        );
        self.noted(answer)
    }

    #[tactic(auto, unfolding(crate::specs::BeatingStanding::beat_of))]
    fn noted(&mut self, answer: Transact) -> Result<Op, NoMemory>
        ensures some { IfOk result (λ o. answer ≢ transact.NoMemory) }
        ensures op { IfOk result (λ o. o ≡ note_by self.old.inv answer) }
        ensures heartbeat { IfOk result (λ o.
            beat_of self.new ≡ next_with o (beat_of self.old)) }
    {
        let function = self.inv;
        self.state = BeatState::Ended;
        match answer {
            Transact::Done => Ok(Op::NoteOk { function }),
            Transact::Missed {
                found: Found::Number(ping),
                ..
            } => Ok(Op::NoteMiss { function, ping }),
            Transact::Missed {
                found: Found::Lock(_),
                ..
            } => Ok(Op::Idle),
            Transact::Failed => Ok(Op::Fault {
                function,
                word: Word::Note,
            }),
            Transact::NoMemory => Err(NoMemory),
        }
    }

    // it sends a close of its session
    #[tactic(auto, unfolding(crate::specs::BeatingStanding::beat_of))]
    fn evict(&mut self, post: &mut Post) -> Result<Op, NoMemory>
        requires lane { has_lane (post_of post.old) (lane.Session self.old.session) ≡ true }
        requires room { let requests = (post_of post.old).lanes (lane.Session self.old.session) in
            requests.given < 2 ^ 63 - 1 }
        ensures op { let q = post_of post.old in
            let requests = q.lanes (lane.Session self.old.session) in
            IfOk result (λ o. o ≡ or_fault q.armed self.old.inv word.Evict
            (op.Evict self.old.inv (requests.given + 1))) }
        ensures heartbeat { IfOk result (λ o.
            beat_of self.new ≡ next_with o (beat_of self.old)) }
        ensures post { let text = sent_text version.Two evict_sent in
            OnOk result (post_of post.new
            ≡ posted (lane.Session self.old.session) text (post_of post.old)) }
        ensures readable { OnOk result (IsSent evict_sent) }
    {
        let message = Sent {
            request: Request::Close { evict: true },
            seen: 0,
        };
        let text = encode_send(self.alloc, &message)?;
        match post.push(Lane::Session(self.session), text.as_slice()) {
            Posted::At(k) => {
                self.state = BeatState::Ended;
                Ok(Op::Evict {
                    function: self.inv,
                    k,
                })
            }
            Posted::Failed => Ok(self.fail(Word::Evict)),
            Posted::NoMemory => Err(NoMemory),
        }
    }
}
