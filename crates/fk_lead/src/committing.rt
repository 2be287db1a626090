//! A leader commits its push where the push's follower has not, and else asks whether it is
//! pending.

ghost use Rattle.std.specs.Prelude.{◌≡◌, ◌≤◌, true, is_some, IfOk, OnOk, if◌then◌else◌, None, Some};
ghost use Rattle.fk_print.specs.declared.op.Word.TheVariants as word;
ghost use Rattle.fk_store.specs.Conds.{session_of};
ghost use Rattle.fk_store.specs.Meaning.{called};
ghost use Rattle.fk_settle.specs.Transaction.{committed};
ghost use Rattle.fk_lead.specs.Next.{GoesOn, GoesOnAfter};
ghost use Rattle.fk_spec.specs.Failing.{or_fault};
ghost use Rattle.fk_lead.specs.Operation.{commit_op, is_pending, pending_op};
ghost use Rattle.fk_settle.specs.Verdicts.{commit_by};
ghost use Rattle.fk_lead.specs.Standing.{leader_of};

use crate::leader::Leader;
use crate::state::State;
use fk_base::NoMemory;
use fk_print::{Op, Word};
use fk_settle::{Verdict, commit};
use fk_store::{Seen, Table};

impl Leader {
    /// It commits its push.
    #[tactic(auto, unfolding(crate::specs::Standing::leader_of), using(crate::proofs::Answering::commit_said))]
    pub(crate) fn commit<T: Table>(&mut self, table: &mut T) -> Result<Op, NoMemory>
        requires first { 1 ≤ self.old.message.k }
        requires session { let t = T.meaning table.old in
            is_some (t.sessions self.old.message.session) ≡ true }
        ensures op { let t = T.meaning table.old in
            IfOk result (λ o. o ≡ or_fault t.armed self.old.inv word.Commit
            (commit_op t self.old.inv self.old.tx self.old.message)) }
        ensures leader { GoesOn result (leader_of self.old) (leader_of self.new) }
        ensures table { let t = T.meaning table.old in
            OnOk result (T.meaning table.new ≡ committed self.old.tx self.old.message t) }
    {
        let verdict = commit(self.alloc, table, self.tx, self.message.get())?;
        Ok(self.committed(verdict))
    }

    #[tactic(auto, unfolding(crate::specs::Standing::leader_of))]
    fn committed(&mut self, verdict: Verdict) -> Op
        ensures op { result ≡ commit_by self.old.inv self.old.tx verdict }
        ensures leader { GoesOnAfter result (leader_of self.old) (leader_of self.new) }
    {
        let function = self.inv;
        let tx = self.tx;
        match verdict {
            Verdict::Done => {
                self.state = State::Sweep;
                Op::CommitOk { function, tx }
            }
            Verdict::Settled(settled) => {
                self.state = State::Pending;
                Op::CommitSettled {
                    function,
                    tx,
                    settled,
                }
            }
            Verdict::Passed {
                path,
                holder,
                moment,
            } => {
                self.state = State::Pending;
                Op::CommitLock {
                    function,
                    tx,
                    path,
                    holder,
                    moment,
                }
            }
            Verdict::Failed => self.fail(Word::Commit),
        }
    }
}

fn is_pending(tx: u64, pending: &[u64]) -> bool
    ensures { result ≡ is_pending tx pending.now }
{
    'seeking: for other in pending {
        if *other == tx {
            return true;
        }
    }
    false
}

// whether a push is pending in its session's record, or none where the table fails
fn pending_at<T: Table>(table: &mut T, session: u32, tx: u64) -> Option<bool>
    requires { is_some ((T.meaning table.old).sessions session) ≡ true }
    ensures pending { let t = T.meaning table.old in
        result ≡ (if t.armed then None else Some (is_pending tx (session_of t session).pending)) }
    ensures table { T.meaning table.new ≡ called (T.meaning table.old) }
{
    match table.session(session) {
        Seen::Here(kept) => Some(is_pending(tx, kept.pending.as_slice())),
        Seen::Missing => unreachable!(),
        Seen::Failed => None,
    }
}

impl Leader {
    /// It asks whether its push is pending: it was committed, and no leader finished it.
    #[tactic(auto, unfolding(crate::specs::Standing::leader_of))]
    pub(crate) fn ask<T: Table>(&mut self, table: &mut T) -> Op
        requires { is_some ((T.meaning table.old).sessions self.old.message.session) ≡ true }
        ensures op { let t = T.meaning table.old in
            result ≡ or_fault t.armed self.old.inv word.Pending
            (pending_op t self.old.inv self.old.tx self.old.message.session) }
        ensures leader { GoesOnAfter result (leader_of self.old) (leader_of self.new) }
        ensures table { T.meaning table.new ≡ called (T.meaning table.old) }
    {
        let function = self.inv;
        let tx = self.tx;
        match pending_at(table, self.message.get().session, tx) {
            Some(true) => {
                self.state = State::Sweep;
                Op::PendingYes { function, tx }
            }
            Some(false) => {
                self.state = State::Drop;
                Op::PendingNo { function, tx }
            }
            None => self.fail(Word::Pending),
        }
    }
}
