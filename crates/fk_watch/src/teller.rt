//! The watch function.

ghost use Rattle.std.specs.Prelude.{◌≡◌, ◌+◌, ◌<◌, length, IfNone, IfOk, IfSome, OnOk};
ghost use Rattle.fk_print.specs.declared.op.Op.TheVariants as op;
ghost use Rattle.fk_print.specs.declared.op.Word.TheVariants as word;
ghost use Rattle.fk_queue.specs.Answers.{ack_of, after_ack};
ghost use Rattle.fk_queue.specs.Letters.{head_number};
ghost use Rattle.fk_queue.specs.Meaning.{posted};
ghost use Rattle.fk_queue.specs.Posts.{post_of};
ghost use Rattle.fk_queue.specs.declared.lane.Lane.TheVariants as lane;
ghost use Rattle.fk_spec.specs.Failing.{or_fault};
ghost use Rattle.fk_spec.specs.Follower.{ack_op};
ghost use Rattle.fk_spec.specs.Teller as stage;
ghost use Rattle.fk_base.specs.Limits.{IsNumber};
ghost use Rattle.fk_wire.specs.TellText.{IsTell, tell_text};
ghost use Rattle.fk_wire.specs.declared.message.Tell.TheVariants as tell;
ghost use Rattle.fk_wire.specs.declared.version.Version.TheVariants as version;
ghost use Rattle.fk_watch.specs.Kept.{watches_of};
ghost use Rattle.fk_watch.specs.Notes.{firing_as};
ghost use Rattle.fk_watch.specs.Telling.{going_to, is_ended, next_with, started, told_at};
ghost use Rattle.fk_watch.specs.TellingFit.{CanTell, IsFit};
ghost use Rattle.fk_watch.specs.TellingStanding.{stage_of, teller_of, telling};
ghost use Rattle.fk_watch.specs.TellingSteps.{Steps, services_of};

use crate::answer::Told;
use crate::table::WatchTable;
use fk_base::NoMemory;
use fk_print::{Op, Word};
use fk_queue::{Ack, Lane, Post, Posted};
use fk_wire::{Fired, Note, Tell, encode_tell};
use std::alloc::Global;

/// What a watch function does next.
#[derive(Clone, Copy)]
pub enum TellerState {
    /// It tells the next watch of its note, or that all are told.
    Tell,
    Ack,
    Ended,
}

/// A function that tells clients which of their watches a push fired: it makes one operation per
/// step, on the services that it is lent.
#[derive(Drop)]
pub struct Teller {
    alloc: Global,
    inv: u64,
    number: u64,
    note: Note,
    /// How many watches of its note it told.
    count: usize,
    state: TellerState,
}

impl Teller {
    /// A watch function of invocation `inv` that starts on the note of this number.
    #[tactic(auto, unfolding(crate::specs::TellingStanding::teller_of))]
    pub fn start(alloc: Global, inv: u64, number: u64, note: Note) -> Teller
        ensures { teller_of result ≡ started inv number note }
    {
        Teller {
            alloc,
            inv,
            number,
            note,
            count: 0,
            state: TellerState::Tell,
        }
    }

    /// Whether it makes no more operations.
    #[tactic(auto, unfolding(crate::specs::TellingStanding::teller_of), using(crate::proofs::TellingSteps::going))]
    pub fn ended(&self) -> bool
        ensures { result ≡ is_ended (teller_of self.now) }
    {
        match self.state {
            TellerState::Ended => true,
            TellerState::Tell | TellerState::Ack => false,
        }
    }

    /// Makes the operation before which it stands, with one call of one of the services, and gives
    /// its line. After `NoMemory` neither the watch function nor the services are to be used
    /// further.
    #[tactic(auto, unfolding(crate::specs::TellingStanding::teller_of))]
    pub fn step(&mut self, post: &mut Post, watches: &mut WatchTable) -> Result<Op, NoMemory>
        requires { IsFit (post_of post.old) (teller_of self.old) }
        ensures { IfOk result (λ o. Steps
            (services_of post.old watches.old)
            (services_of post.new watches.new)
            (teller_of self.old) (teller_of self.new) o) }
    {
        match self.state {
            TellerState::Tell => match self.next()? {
                Some(fired) => self.tell(post, fired),
                None => Ok(self.mark(watches)),
            },
            TellerState::Ack => Ok(self.ack(post)),
            TellerState::Ended => Ok(Op::Idle),
        }
    }

    // its operation failed, and it ends
    #[tactic(auto, unfolding(crate::specs::TellingStanding::teller_of))]
    fn fail(&mut self, word: Word) -> Op
        ensures op { result ≡ op.Fault self.old.inv word }
        ensures teller { teller_of self.new ≡ going_to stage.Ended (teller_of self.old) }
    {
        self.state = TellerState::Ended;
        Op::Fault {
            function: self.inv,
            word,
        }
    }
}

impl Teller {
    // the next watch of its note, if there is one that isn't told
    #[tactic(auto, using(crate::proofs::TellingSteps::to_next, crate::proofs::TellingSteps::to_none))]
    fn next(&self) -> Result<Option<Fired>, NoMemory>
        ensures some { let next = stage_of self.now.note self.now.count TellerState.Tell in
            IfOk result (λ o. IfSome o (λ f. next ≡ telling self.now.note self.now.count f)) }
        ensures below { IfOk result (λ o. IfSome o
            (λ f. self.now.count < length self.now.note.fired)) }
        ensures none { IfOk result (λ o. IfNone o
            (stage_of self.now.note self.now.count TellerState.Tell ≡ stage.Told)) }
    {
        let list = self.note.fired.as_slice();
        if self.count < list.len() {
            Ok(Some(list[self.count].copy()?))
        } else {
            Ok(None)
        }
    }

    // it told a watch
    #[tactic(auto, unfolding(crate::specs::TellingStanding::teller_of))]
    fn advance(&mut self)
        requires { self.old.count < length self.old.note.fired }
        ensures { let next = stage_of self.old.note (self.old.count + 1) self.old.state in
            teller_of self.new ≡ going_to next (teller_of self.old) }
    {
        // its note has at most as many as a number counts
        let _length = self.note.fired.as_slice().len();
        self.count += 1;
    }

    // it tells a watch's client
    #[tactic(auto, unfolding(crate::specs::TellingStanding::teller_of))]
    fn tell(&mut self, post: &mut Post, fired: Fired) -> Result<Op, NoMemory>
        requires tx { IsNumber self.old.note.tx }
        requires client { CanTell (post_of post.old) (firing_as self.old.note.tx fired) }
        requires below { self.old.count < length self.old.note.fired }
        requires state { self.old.state ≡ TellerState.Tell }
        requires next { (teller_of self.old).stage ≡ telling self.old.note self.old.count fired }
        ensures op { IfOk result (λ o.
            o ≡ or_fault (post_of post.old).armed self.old.inv word.Tell
            (op.Tell self.old.inv fired.session fired.id)) }
        ensures teller { IfOk result (λ o.
            teller_of self.new ≡ next_with o (teller_of self.old)) }
        ensures post { let text = tell_text version.Two (tell.Watch self.old.note.tx fired) in
            OnOk result (post_of post.new
            ≡ posted (lane.Inbox fired.session) text (post_of post.old)) }
        ensures readable { OnOk result (IsTell (tell.Watch self.old.note.tx fired)) }
    {
        let session = fired.session;
        let watch = fired.id;
        let tell = Tell::Watch {
            tx: self.note.tx,
            fired,
        };
        let text = encode_tell(self.alloc, &tell)?;
        match post.push(Lane::Inbox(session), text.as_slice()) {
            Posted::At(_) => {
                self.advance();
                Ok(Op::Tell {
                    function: self.inv,
                    session,
                    watch,
                })
            }
            Posted::Failed => Ok(self.fail(Word::Tell)),
            Posted::NoMemory => Err(NoMemory),
        }
    }

    // the watches of its note are told
    #[tactic(auto, unfolding(crate::specs::TellingStanding::teller_of))]
    fn mark(&mut self, watches: &mut WatchTable) -> Op
        ensures op { result ≡ or_fault (watches_of watches.old).armed self.old.inv word.Told
            (op.Told self.old.inv self.old.note.tx) }
        ensures teller { teller_of self.new ≡ next_with result (teller_of self.old) }
        ensures watches { watches_of watches.new
            ≡ told_at self.old.note.tx (watches_of watches.old) }
    {
        match watches.told(self.note.tx) {
            Told::Done => {
                self.state = TellerState::Ack;
                Op::Told {
                    function: self.inv,
                    tx: self.note.tx,
                }
            }
            Told::Failed => self.fail(Word::Told),
        }
    }

    // it removes its note, where that is its lane's head, and ends
    #[tactic(auto, unfolding(crate::specs::TellingStanding::teller_of))]
    fn ack(&mut self, post: &mut Post) -> Op
        ensures op { let q = post_of post.old in
            result ≡ or_fault q.armed self.old.inv word.Ack
            (ack_op self.old.inv self.old.number (head_number (q.lanes lane.Watch))) }
        ensures teller { teller_of self.new ≡ next_with result (teller_of self.old) }
        ensures post { let q = post_of post.old in
            post_of post.new ≡ after_ack q lane.Watch (ack_of q lane.Watch self.old.number) }
    {
        self.state = TellerState::Ended;
        let function = self.inv;
        match post.ack(Lane::Watch, self.number) {
            Ack::Acked => Op::AckOk { function },
            Ack::NotHead => Op::AckGone { function },
            Ack::Failed => Op::Fault {
                function,
                word: Word::Ack,
            },
        }
    }
}
