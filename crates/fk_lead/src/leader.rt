ghost use Rattle.std.specs.Prelude.{◌≡◌, IfOk};
ghost use Rattle.fk_print.specs.declared.op.Op.TheVariants as op;
ghost use Rattle.fk_spec.specs.Leader as stage;
ghost use Rattle.fk_lead.specs.Meaning.{applied_of, is_ended, started};
ghost use Rattle.fk_lead.specs.Next.{going_to};
ghost use Rattle.fk_lead.specs.Standing.{leader_of};

use crate::indexed::IndexedPush;
use crate::state::State;
use fk_base::{NoMemory, Path};
use fk_print::{Op, Word};
use fk_settle::applied_as;
use fk_tree::Applied;
use fk_user::IdSet;
use fk_wire::{FiredList, Pushed};
use std::alloc::Global;
use std::collections::VecDeque;

/// A function that carries push `tx`: it makes one operation per step, on the services that it is
/// lent.
#[derive(Drop)]
pub struct Leader {
    pub(crate) alloc: Global,
    pub(crate) inv: u64,
    pub(crate) tx: u64,
    pub(crate) message: IndexedPush,
    /// The paths that are to be put after the next one.
    pub(crate) others: VecDeque<Path>,
    /// What its sweep gave: the watches that its push fired and that aren't told ..
    pub(crate) fired: FiredList,
    /// .. and the epoch.
    pub(crate) epoch: IdSet,
    pub(crate) state: State,
}

impl Leader {
    /// A leader of invocation `inv` that starts on push `tx`.
    #[tactic(auto, unfolding(crate::specs::Standing::leader_of))]
    pub fn start(alloc: Global, inv: u64, tx: u64, message: Pushed) -> Leader
        ensures { leader_of result ≡ started inv tx message }
    {
        Leader {
            alloc,
            inv,
            tx,
            message: IndexedPush::new(message),
            others: VecDeque::new(alloc),
            fired: FiredList::new(alloc),
            epoch: IdSet::new(alloc),
            state: State::Commit,
        }
    }

    /// Whether it makes no more operations.
    #[tactic(auto, unfolding(crate::specs::Standing::leader_of))]
    pub fn ended(&self) -> bool
        ensures { result ≡ is_ended (leader_of self.now) }
    {
        match &self.state {
            State::Ended => true,
            State::Commit
            | State::Pending
            | State::Drop
            | State::Sweep
            | State::Put(_)
            | State::Publish
            | State::Notify
            | State::Reply
            | State::Done
            | State::Ack => false,
        }
    }

    /// Its operation failed, and it ends.
    #[tactic(auto, unfolding(crate::specs::Standing::leader_of))]
    pub(crate) fn fail(&mut self, word: Word) -> Op
        ensures op { result ≡ op.Fault self.old.inv word }
        ensures leader { leader_of self.new ≡ going_to stage.Ended (leader_of self.old) }
    {
        self.state = State::Ended;
        Op::Fault {
            function: self.inv,
            word,
        }
    }

    /// Its push as it is applied.
    #[tactic(auto, unfolding(crate::specs::Standing::leader_of))]
    pub(crate) fn applied(&self) -> Result<Applied, NoMemory>
        ensures { IfOk result (λ a. a ≡ applied_of (leader_of self.now)) }
    {
        applied_as(self.tx, self.message.get())
    }
}
