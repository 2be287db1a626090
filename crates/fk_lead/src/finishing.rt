//! A leader finishes its push in the table, as dropped or as done.

ghost use Rattle.std.specs.Prelude.{◌≡◌, true, is_some, IfOk, OnOk};
ghost use Rattle.fk_print.specs.declared.op.Word.TheVariants as word;
ghost use Rattle.fk_store.specs.Writes.{are_fit_writes};
ghost use Rattle.fk_settle.specs.Transaction.{transacted};
ghost use Rattle.fk_lead.specs.Next.{GoesOn, GoesOnAfter};
ghost use Rattle.fk_spec.specs.Failing.{or_fault};
ghost use Rattle.fk_lead.specs.Operation.{done_op, drop_op};
ghost use Rattle.fk_lead.specs.Said.{done_by, drop_by, finish_of};
ghost use Rattle.fk_lead.specs.Services.{done_writes, drop_writes, finish_conds};
ghost use Rattle.fk_lead.specs.Standing.{leader_of};

use crate::leader::Leader;
use crate::state::State;
use fk_base::NoMemory;
use fk_print::{Op, Word};
use fk_store::{Cond, Found, Table, Transact, Write};

/// What becomes of finishing a push.
#[derive(Drop)]
pub enum Finish {
    Done,
    /// This push is done, which isn't below the one to finish.
    Already(u64),
    Failed,
}

// makes the writes where no push from `tx` on is done
#[tactic(auto, using(crate::proofs::Answering::finish_is))]
fn finish_at<T: Table>(table: &mut T, tx: u64, writes: &[Write]) -> Result<Finish, NoMemory>
    requires { are_fit_writes (T.meaning table.old) writes.now ≡ true }
    ensures finish { IfOk result (λ f. f ≡ finish_of (T.meaning table.old) tx) }
    ensures table { let t = T.meaning table.old in
        OnOk result (T.meaning table.new ≡ transacted (finish_conds tx) writes.now t) }
{
    match table.transact(&[Cond::DoneBelow(tx)], writes) {
        Transact::Done => Ok(Finish::Done),
        Transact::Missed {
            found: Found::Number(done),
            ..
        } => Ok(Finish::Already(done)),
        Transact::Missed {
            found: Found::Lock(_),
            ..
        } => Ok(Finish::Failed),
        Transact::Failed => Ok(Finish::Failed),
        Transact::NoMemory => Err(NoMemory),
    }
}

impl Leader {
    /// It drops its push, which can never be committed.
    #[tactic(auto, unfolding(crate::specs::Standing::leader_of), using(crate::proofs::Answering::drop_said))]
    pub(crate) fn drop_push<T: Table>(&mut self, table: &mut T) -> Result<Op, NoMemory>
        ensures op { let t = T.meaning table.old in
            IfOk result (λ o. o ≡ or_fault t.armed self.old.inv word.Drop
            (drop_op t self.old.inv self.old.tx)) }
        ensures leader { GoesOn result (leader_of self.old) (leader_of self.new) }
        ensures table { let t = T.meaning table.old in
            OnOk result (T.meaning table.new
            ≡ transacted (finish_conds self.old.tx) (drop_writes self.old.tx) t) }
    {
        let finish = finish_at(table, self.tx, &[Write::Done(self.tx)])?;
        Ok(self.dropped(finish))
    }

    #[tactic(auto, unfolding(crate::specs::Standing::leader_of))]
    fn dropped(&mut self, finish: Finish) -> Op
        ensures op { result ≡ drop_by self.old.inv self.old.tx finish }
        ensures leader { GoesOnAfter result (leader_of self.old) (leader_of self.new) }
    {
        let function = self.inv;
        let tx = self.tx;
        match finish {
            Finish::Done => {
                self.state = State::Ack;
                Op::DropOk { function, tx }
            }
            Finish::Already(done) => {
                self.state = State::Ack;
                Op::DropMiss { function, tx, done }
            }
            Finish::Failed => self.fail(Word::Drop),
        }
    }
}

impl Leader {
    /// Its push is done, and no longer pending.
    #[tactic(auto, unfolding(crate::specs::Standing::leader_of), using(crate::proofs::Answering::done_said))]
    pub(crate) fn finish<T: Table>(&mut self, table: &mut T) -> Result<Op, NoMemory>
        requires { is_some ((T.meaning table.old).sessions self.old.message.session) ≡ true }
        ensures op { let t = T.meaning table.old in
            IfOk result (λ o. o ≡ or_fault t.armed self.old.inv word.Done
            (done_op t self.old.inv self.old.tx)) }
        ensures leader { GoesOn result (leader_of self.old) (leader_of self.new) }
        ensures table { let writes = done_writes self.old.message.session self.old.tx in
            OnOk result (T.meaning table.new
            ≡ transacted (finish_conds self.old.tx) writes (T.meaning table.old)) }
    {
        let writes = [
            Write::Done(self.tx),
            Write::PopPending {
                session: self.message.get().session,
                tx: self.tx,
            },
        ];
        let finish = finish_at(table, self.tx, &writes)?;
        Ok(self.finished(finish))
    }

    #[tactic(auto, unfolding(crate::specs::Standing::leader_of))]
    fn finished(&mut self, finish: Finish) -> Op
        ensures op { result ≡ done_by self.old.inv self.old.tx finish }
        ensures leader { GoesOnAfter result (leader_of self.old) (leader_of self.new) }
    {
        let function = self.inv;
        let tx = self.tx;
        match finish {
            Finish::Done => {
                self.state = State::Ack;
                Op::DoneOk { function, tx }
            }
            Finish::Already(done) => {
                self.state = State::Ack;
                Op::DoneMiss { function, tx, done }
            }
            Finish::Failed => self.fail(Word::Done),
        }
    }
}
