//! A follower settles that it lost a lock.

ghost use Rattle.std.specs.Prelude.{◌≡◌, ◌≤◌, [], true, false, is_some, IfOk, OnOk};
ghost use Rattle.fk_print.specs.declared.op.Word.TheVariants as word;
ghost use Rattle.fk_follow.specs.Next.{GoesOn, GoesOnAfter};
ghost use Rattle.fk_spec.specs.Failing.{or_fault};
ghost use Rattle.fk_follow.specs.Operation.{lost_op};
ghost use Rattle.fk_follow.specs.Said.{lost_by};
ghost use Rattle.fk_follow.specs.Services.{settled_as};
ghost use Rattle.fk_follow.specs.Standing.{follower_of, outcome_of};
ghost use Rattle.fk_follow.specs.Reading.{is_passed};

use crate::follower::Follower;
use crate::state::{Kept, State};
use fk_base::NoMemory;
use fk_print::{Op, Word};
use fk_settle::{Verdict, refuse_writes, settle};
use fk_store::Table;

impl Follower {
    /// It settles its request as this loss, where it is still the session's next.
    #[tactic(auto, unfolding(crate::specs::Standing::follower_of), using(fk_settle::proofs::Fitting::fit_refuse, crate::proofs::Answering::lost_said))]
    pub(crate) fn settle_loss<T: Table>(
        &mut self,
        table: &mut T,
        loss: Kept,
    ) -> Result<Op, NoMemory>
        requires first { 1 ≤ self.old.k }
        requires session { is_some ((T.meaning table.old).sessions self.old.session) ≡ true }
        requires loss { outcome_of loss ≡ (follower_of self.old).outcome }
        ensures op { let t = T.meaning table.old in
            IfOk result (λ o. o ≡ or_fault t.armed self.old.inv word.Lost
            (lost_op t self.old.inv (follower_of self.old).follower)) }
        ensures follower { GoesOn result (follower_of self.old) (follower_of self.new) }
        ensures table { let m = follower_of self.old in
            OnOk result (T.meaning table.new ≡ settled_as m.outcome [] m (T.meaning table.old)) }
    {
        let writes = refuse_writes(self.alloc, self.session, self.k, loss.outcome()?, &[])?;
        let verdict = settle(
            self.alloc,
            table,
            self.session,
            self.k,
            self.inv,
            &[],
            writes.as_slice(),
        )?;
        Ok(self.lost(loss, verdict))
    }

    #[tactic(auto, unfolding(crate::specs::Standing::follower_of))]
    fn lost(&mut self, loss: Kept, verdict: Verdict) -> Op
        requires loss { outcome_of loss ≡ (follower_of self.old).outcome }
        requires verdict { is_passed verdict ≡ false }
        ensures op { result ≡ lost_by self.old.inv verdict }
        ensures follower { GoesOnAfter result (follower_of self.old) (follower_of self.new) }
    {
        let function = self.inv;
        match verdict {
            Verdict::Done => {
                self.state = State::Reply(loss);
                Op::LostOk { function }
            }
            Verdict::Settled(settled) => {
                self.state = State::Session;
                Op::LostSettled { function, settled }
            }
            Verdict::Passed { .. } => unreachable!(),
            Verdict::Failed => self.fail(Word::Lost),
        }
    }
}
