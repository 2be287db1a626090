//! A follower's step: one operation, by its state.

ghost use Rattle.std.specs.Prelude.{IfOk};
ghost use Rattle.fk_queue.specs.Posts.{post_of};
ghost use Rattle.fk_follow.specs.Fit.{IsFit};
ghost use Rattle.fk_follow.specs.Standing.{follower_of};
ghost use Rattle.fk_follow.specs.Steps.{Steps, services_of};

use crate::follower::Follower;
use crate::state::{Kept, State};
use fk_base::NoMemory;
use fk_print::Op;
use fk_queue::Post;
use fk_store::Table;

impl Follower {
    /// Makes the next operation at a moment, where locks pass on after `lock`, and tells it with
    /// its answer. After `NoMemory` the follower and the services may be anything.
    #[tactic(auto, unfolding(crate::specs::Standing::follower_of))]
    pub fn step<T: Table>(
        &mut self,
        table: &mut T,
        post: &mut Post,
        now: u64,
        lock: u64,
    ) -> Result<Op, NoMemory>
        requires { IsFit (T.meaning table.old) (post_of post.old) now (follower_of self.old) }
        ensures { IfOk result (λ o. Steps
            (services_of (T.meaning table.old) post.old)
            (services_of (T.meaning table.new) post.new)
            (follower_of self.old) (follower_of self.new) now lock o) }
    {
        match self.state.copy()? {
            State::Session => Ok(self.ask(table)?),
            State::Owned => Ok(self.list(table)?),
            State::Lock(path) => Ok(self.take(table, path, now, lock)?),
            State::Push => Ok(self.push(post, now)?),
            State::Refuse { code, place, at } => Ok(self.refuse(table, code, place, at)?),
            State::Expire { at } => Ok(self.expire(table, at)?),
            State::Commit { tx, moment } => Ok(self.commit(table, tx, moment)?),
            State::Lost {
                path,
                own,
                found,
                moment,
            } => {
                let loss = Kept::Lost {
                    path,
                    own,
                    found,
                    moment,
                };
                Ok(self.settle_loss(table, loss)?)
            }
            State::Reply(kept) => Ok(self.reply(post, kept)?),
            State::Ack => Ok(self.ack(post)),
            State::Ended => unreachable!(),
        }
    }
}
