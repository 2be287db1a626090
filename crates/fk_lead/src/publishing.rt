//! A leader puts the record of each path that its push edits, and then publishes the push.

ghost use Rattle.std.specs.Prelude.{◌≡◌, ◌≢◌, IfOk, OnOk};
ghost use Rattle.fk_print.specs.declared.op.Word.TheVariants as word;
ghost use Rattle.fk_spec.specs.Leader.{to_put};
ghost use Rattle.fk_spec.specs.Leader as stage;
ghost use Rattle.fk_user.specs.Stored.{store_of};
ghost use Rattle.fk_user.specs.declared.answer.Publish.TheVariants as publish;
ghost use Rattle.fk_user.specs.declared.answer.PutRecord.TheVariants as put;
ghost use Rattle.fk_lead.specs.Meaning.{edits_of};
ghost use Rattle.fk_lead.specs.Next.{GoesOn, going_to, to_notify};
ghost use Rattle.fk_spec.specs.Failing.{or_fault};
ghost use Rattle.fk_lead.specs.Operation.{publish_op, put_op};
ghost use Rattle.fk_lead.specs.Said.{publish_by, put_by};
ghost use Rattle.fk_lead.specs.Services.{published_at, put_at};
ghost use Rattle.fk_lead.specs.Standing.{leader_of};

use crate::leader::Leader;
use crate::state::State;
use fk_base::{NoMemory, Path};
use fk_print::{Op, Word};
use fk_user::{Publish, PutRecord, UserStore};

impl Leader {
    /// It goes on to the first of its other paths, or to the publication where there is none.
    #[tactic(auto, unfolding(crate::specs::Standing::leader_of))]
    pub(crate) fn put_next(&mut self)
        ensures { leader_of self.new
            ≡ going_to (to_put self.old.others.items) (leader_of self.old) }
    {
        self.state = match self.others.pop_front() {
            Some(path) => State::Put(path),
            None => State::Publish,
        };
    }

    /// It puts the record of a path.
    #[tactic(auto, unfolding(crate::specs::Standing::leader_of), using(crate::proofs::Answering::put_said, crate::proofs::Answering::put_after))]
    pub(crate) fn put(&mut self, user: &mut UserStore, path: Path) -> Result<Op, NoMemory>
        requires { (leader_of self.old).stage ≡ stage.Put path self.old.others.items }
        ensures op { let u = store_of user.old in
            IfOk result (λ o. o ≡ or_fault u.armed self.old.inv word.Put
            (put_op u self.old.inv self.old.tx path)) }
        ensures leader { GoesOn result (leader_of self.old) (leader_of self.new) }
        ensures user { let edits = edits_of path (leader_of self.old) in
            OnOk result (store_of user.new
            ≡ put_at path self.old.tx self.old.message.moment edits (store_of user.old)) }
    {
        let edits = self.message.edits(self.alloc, &path)?;
        let answer = user.put(&path, self.tx, self.message.get().moment, &edits);
        self.was_put(path, answer)
    }

    #[tactic(auto, unfolding(crate::specs::Standing::leader_of))]
    fn was_put(&mut self, path: Path, answer: PutRecord) -> Result<Op, NoMemory>
        requires { (leader_of self.old).stage ≡ stage.Put path self.old.others.items }
        ensures some { IfOk result (λ o. answer ≢ put.NoMemory) }
        ensures op { IfOk result (λ o. o ≡ put_by self.old.inv self.old.tx path answer) }
        ensures leader { GoesOn result (leader_of self.old) (leader_of self.new) }
    {
        let function = self.inv;
        let tx = self.tx;
        match answer {
            PutRecord::Done => {
                self.put_next();
                Ok(Op::PutOk { function, tx, path })
            }
            PutRecord::Already(stamp) => {
                self.put_next();
                Ok(Op::PutMiss {
                    function,
                    tx,
                    path,
                    stamp,
                })
            }
            PutRecord::Failed => Ok(self.fail(Word::Put)),
            PutRecord::NoMemory => Err(NoMemory),
        }
    }
}

impl Leader {
    /// It publishes its push, with the epoch of its sweep.
    #[tactic(auto, unfolding(crate::specs::Standing::leader_of), using(crate::proofs::Answering::publish_said, crate::proofs::Answering::publish_after))]
    pub(crate) fn publish(&mut self, user: &mut UserStore) -> Result<Op, NoMemory>
        ensures op { let u = store_of user.old in
            IfOk result (λ o. o ≡ or_fault u.armed self.old.inv word.Publish
            (publish_op u self.old.inv self.old.tx)) }
        ensures leader { GoesOn result (leader_of self.old) (leader_of self.new) }
        ensures user { let u = store_of user.old in
            OnOk result (store_of user.new ≡ published_at self.old.tx self.old.epoch u) }
    {
        let answer = user.publish(self.tx, &self.epoch);
        self.published(answer)
    }

    // fired watches are notified before the reply
    #[tactic(auto, unfolding(crate::specs::Standing::leader_of))]
    fn notify_next(&mut self)
        ensures { leader_of self.new ≡ going_to (to_notify self.old.fired) (leader_of self.old) }
    {
        self.state = if self.fired.as_slice().is_empty() {
            State::Reply
        } else {
            State::Notify
        };
    }

    #[tactic(auto, unfolding(crate::specs::Standing::leader_of))]
    fn published(&mut self, answer: Publish) -> Result<Op, NoMemory>
        ensures some { IfOk result (λ o. answer ≢ publish.NoMemory) }
        ensures op { IfOk result (λ o. o ≡ publish_by self.old.inv self.old.tx answer) }
        ensures leader { GoesOn result (leader_of self.old) (leader_of self.new) }
    {
        let function = self.inv;
        let tx = self.tx;
        match answer {
            Publish::Done => {
                self.notify_next();
                Ok(Op::PublishOk { function, tx })
            }
            Publish::Already(mark) => {
                self.notify_next();
                Ok(Op::PublishMiss { function, tx, mark })
            }
            Publish::Failed => Ok(self.fail(Word::Publish)),
            Publish::NoMemory => Err(NoMemory),
        }
    }
}
