ghost use Rattle.std.specs.Prelude.{◌≡◌, OnOk};
ghost use Rattle.fk_print.specs.declared.op.Op.TheVariants as op;
ghost use Rattle.fk_spec.specs.Follower as stage;
ghost use Rattle.fk_tree.specs.Check.{HasFewParts};
ghost use Rattle.fk_follow.specs.Meaning.{is_ended, started};
ghost use Rattle.fk_follow.specs.Next.{beginning, going_to, locking};
ghost use Rattle.fk_follow.specs.Standing.{follower_of};

use crate::deciding::next_state;
use crate::granted::Granted;
use crate::own_nodes::OwnNodes;
use crate::state::State;
use fk_base::NoMemory;
use fk_print::{Op, Word};
use fk_settle::closes;
use fk_wire::Sent;
use std::alloc::Global;

/// A function that carries request `k` of a session: it makes one operation per step, on the
/// services that it is lent.
#[derive(Drop)]
pub struct Follower {
    pub(crate) alloc: Global,
    pub(crate) inv: u64,
    pub(crate) session: u32,
    pub(crate) k: u64,
    pub(crate) message: Sent,
    /// The session's last committed transaction when it began.
    pub(crate) last: u64,
    /// The session's nodes, for a close.
    pub(crate) owned: OwnNodes,
    pub(crate) granted: Vec<Granted>,
    pub(crate) state: State,
}

impl Follower {
    /// A follower of invocation `inv` that starts on message `k` of a session's lane.
    #[tactic(auto, unfolding(crate::specs::Standing::follower_of))]
    pub fn start(alloc: Global, inv: u64, session: u32, k: u64, message: Sent) -> Follower
        ensures { follower_of result ≡ started inv session k message }
    {
        Follower {
            alloc,
            inv,
            session,
            k,
            message,
            last: 0,
            owned: OwnNodes::none(alloc),
            granted: Vec::new(alloc),
            state: State::Session,
        }
    }

    /// Whether it makes no more operations.
    #[tactic(auto, unfolding(crate::specs::Standing::follower_of))]
    pub fn ended(&self) -> bool
        ensures { result ≡ is_ended (follower_of self.now) }
    {
        match &self.state {
            State::Ended => true,
            State::Session
            | State::Owned
            | State::Lock(_)
            | State::Push
            | State::Refuse { .. }
            | State::Expire { .. }
            | State::Commit { .. }
            | State::Lost { .. }
            | State::Reply(_)
            | State::Ack => false,
        }
    }

    /// Its operation failed, and it ends.
    #[tactic(auto, unfolding(crate::specs::Standing::follower_of))]
    pub(crate) fn fail(&mut self, word: Word) -> Op
        ensures op { result ≡ op.Fault self.old.inv word }
        ensures follower { follower_of self.new ≡ going_to stage.Ended (follower_of self.old) }
    {
        self.state = State::Ended;
        Op::Fault {
            function: self.inv,
            word,
        }
    }

    /// It goes on to the next lock, or decides after the last one.
    #[tactic(auto, unfolding(crate::specs::Standing::follower_of))]
    pub(crate) fn go_on(&mut self) -> Result<(), NoMemory>
        requires { HasFewParts self.old.message.request }
        ensures { let m = follower_of self.old in
            OnOk result (follower_of self.new ≡ locking m.follower m) }
    {
        self.state = next_state(
            self.alloc,
            self.session,
            self.last,
            &self.message,
            &self.owned,
            self.granted.as_slice(),
        )?;
        Ok(())
    }

    /// It begins: a close first asks which nodes its session owns.
    #[tactic(auto, unfolding(crate::specs::Standing::follower_of))]
    pub(crate) fn begin(&mut self) -> Result<(), NoMemory>
        requires { HasFewParts self.old.message.request }
        ensures { let m = follower_of self.old in
            OnOk result (follower_of self.new ≡ beginning m.follower m) }
    {
        if closes(&self.message.request) {
            self.state = State::Owned;
            return Ok(());
        }
        self.go_on()
    }
}
