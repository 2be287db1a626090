ghost use Rattle.std.specs.Prelude.{IfOk};
ghost use Rattle.fk_queue.specs.Posts.{post_of};
ghost use Rattle.fk_watch.specs.Services.{services_of};
ghost use Rattle.fk_lead.specs.Fit.{IsFit};
ghost use Rattle.fk_lead.specs.Standing.{leader_of};
ghost use Rattle.fk_lead.specs.Steps.{Steps};

use crate::leader::Leader;
use crate::state::State;
use fk_base::NoMemory;
use fk_print::Op;
use fk_queue::Post;
use fk_store::Table;
use fk_user::UserStore;
use fk_watch::WatchTable;

impl Leader {
    /// Makes the operation before which it stands, with one call of one of the services, and gives
    /// its line. After `NoMemory` neither the leader nor the services are to be used further.
    #[tactic(auto, unfolding(crate::specs::Standing::leader_of))]
    pub fn step<T: Table>(
        &mut self,
        table: &mut T,
        post: &mut Post,
        watches: &mut WatchTable,
        user: &mut UserStore,
    ) -> Result<Op, NoMemory>
        requires { IsFit (T.meaning table.old) (post_of post.old) (leader_of self.old) }
        ensures { IfOk result (λ o. Steps
            (services_of (T.meaning table.old) post.old watches.old user.old)
            (services_of (T.meaning table.new) post.new watches.new user.new)
            (leader_of self.old) (leader_of self.new) o) }
    {
        match &self.state {
            State::Commit => Ok(self.commit(table)?),
            State::Pending => Ok(self.ask(table)),
            State::Drop => Ok(self.drop_push(table)?),
            State::Sweep => Ok(self.sweep(watches)?),
            State::Put(path) => {
                let path = path.copy()?;
                Ok(self.put(user, path)?)
            }
            State::Publish => Ok(self.publish(user)?),
            State::Notify => Ok(self.notify(post)?),
            State::Reply => Ok(self.reply(post)?),
            State::Done => Ok(self.finish(table)?),
            State::Ack => Ok(self.ack(post)),
            State::Ended => Ok(Op::Idle),
        }
    }
}
