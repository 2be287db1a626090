//! A follower's transactions: it commits its push, or refuses its request.

ghost use Rattle.std.specs.Prelude.{◌≡◌, ◌≤◌, [], true, is_some, IfOk, OnOk};
ghost use Rattle.fk_base.specs.declared.code.Code.TheVariants as code;
ghost use Rattle.fk_print.specs.declared.op.Word.TheVariants as word;
ghost use Rattle.fk_store.specs.declared.outcome.Outcome.TheVariants as outcome;
ghost use Rattle.fk_follow.specs.Next.{GoesOn, losing};
ghost use Rattle.fk_spec.specs.Failing.{or_fault};
ghost use Rattle.fk_spec.specs.Follower.{paths_of};
ghost use Rattle.fk_follow.specs.Operation.{commit_op, expire_op, locked, refuse_on};
ghost use Rattle.fk_settle.specs.Transaction.{committed};
ghost use Rattle.fk_settle.specs.Verdicts.{commit_by};
ghost use Rattle.fk_follow.specs.Said.{refusal_of, refuse_by};
ghost use Rattle.fk_follow.specs.Services.{push_at, settled_as};
ghost use Rattle.fk_follow.specs.Standing.{follower_of};

use crate::follower::Follower;
use crate::granted::own_moment;
use crate::state::{Kept, State};
use fk_base::{Code, NoMemory, Path, Paths};
use fk_print::{Op, Word};
use fk_settle::{Verdict, commit_writes, in_order, refuse_writes, settle};
use fk_store::{Outcome, Table};

impl Follower {
    /// The paths of its locks, in the order of their grants.
    #[tactic(auto, unfolding(crate::specs::Standing::follower_of))]
    pub(crate) fn paths(&self) -> Result<Paths, NoMemory>
        ensures { IfOk result (λ ps. ps ≡ paths_of (follower_of self.now).follower.granted) }
    {
        let mut paths = Paths::new(self.alloc);
        'listing: for lock in self.granted.as_slice() {
            paths.push(lock.path.copy()?)?;
        }
        Ok(paths)
    }

    // those paths in path order
    fn locked(&self) -> Result<Vec<Path>, NoMemory>
        ensures { IfOk result (λ ps. ps.items ≡ locked (follower_of self.now).follower) }
    {
        let paths = self.paths()?;
        in_order(self.alloc, paths.as_slice())
    }

    // the lock of a path had passed on
    #[tactic(auto, unfolding(crate::specs::Standing::follower_of))]
    fn lose(&mut self, path: &Path, holder: u64, moment: u64) -> Result<(), NoMemory>
        ensures { let m = follower_of self.old in
            OnOk result (follower_of self.new ≡ losing path.now holder moment m) }
    {
        self.state = State::Lost {
            path: path.copy()?,
            own: own_moment(self.granted.as_slice(), path),
            found: holder,
            moment,
        };
        Ok(())
    }
}

impl Follower {
    /// It commits its push, which it made at this moment.
    #[tactic(auto, unfolding(crate::specs::Standing::follower_of), using(fk_settle::proofs::Fitting::fit_commit, crate::proofs::Answering::commit_said))]
    pub(crate) fn commit<T: Table>(
        &mut self,
        table: &mut T,
        tx: u64,
        moment: u64,
    ) -> Result<Op, NoMemory>
        requires first { 1 ≤ self.old.k }
        requires session { is_some ((T.meaning table.old).sessions self.old.session) ≡ true }
        ensures op { let t = T.meaning table.old in
            IfOk result (λ o. o ≡ or_fault t.armed self.old.inv word.Commit
            (commit_op t self.old.inv tx (follower_of self.old).follower)) }
        ensures follower { GoesOn result (follower_of self.old) (follower_of self.new) }
        ensures table { let push = push_at moment (follower_of self.old) in
            OnOk result (T.meaning table.new ≡ committed tx push (T.meaning table.old)) }
    {
        let push = self.pushed(moment)?;
        let paths = self.locked()?;
        let writes = commit_writes(self.alloc, tx, &push, paths.as_slice())?;
        let verdict = settle(
            self.alloc,
            table,
            self.session,
            self.k,
            self.inv,
            paths.as_slice(),
            writes.as_slice(),
        )?;
        self.committed(tx, verdict)
    }

    #[tactic(auto, unfolding(crate::specs::Standing::follower_of))]
    fn committed(&mut self, tx: u64, verdict: Verdict) -> Result<Op, NoMemory>
        ensures op { IfOk result (λ o. o ≡ commit_by self.old.inv tx verdict) }
        ensures follower { GoesOn result (follower_of self.old) (follower_of self.new) }
    {
        let function = self.inv;
        match verdict {
            Verdict::Done => {
                self.state = State::Ack;
                Ok(Op::CommitOk { function, tx })
            }
            Verdict::Settled(settled) => {
                self.state = State::Session;
                Ok(Op::CommitSettled {
                    function,
                    tx,
                    settled,
                })
            }
            Verdict::Passed {
                path,
                holder,
                moment,
            } => {
                self.lose(&path, holder, moment)?;
                Ok(Op::CommitLock {
                    function,
                    tx,
                    path,
                    holder,
                    moment,
                })
            }
            Verdict::Failed => Ok(self.fail(Word::Commit)),
        }
    }

    /// Its request was refused: it settles that under the conditions of a commit.
    pub(crate) fn refuse<T: Table>(
        &mut self,
        table: &mut T,
        code: Code,
        place: u32,
        at: u64,
    ) -> Result<Op, NoMemory>
        requires first { 1 ≤ self.old.k }
        requires session { is_some ((T.meaning table.old).sessions self.old.session) ≡ true }
        ensures op { let t = T.meaning table.old in
            let f = (follower_of self.old).follower in
            IfOk result (λ o. o ≡ or_fault t.armed self.old.inv word.Refuse
            (refuse_on t self.old.inv (refusal_of code place) at f (locked f))) }
        ensures follower { GoesOn result (follower_of self.old) (follower_of self.new) }
        ensures table { let m = follower_of self.old in
            let refused = outcome.Refused code at place in
            OnOk result (T.meaning table.new
            ≡ settled_as refused (locked m.follower) m (T.meaning table.old)) }
    {
        let paths = self.locked()?;
        self.refuse_with(table, code, place, at, paths.as_slice())
    }

    /// Its session is closed: it settles that the request is refused, whatever its locks.
    pub(crate) fn expire<T: Table>(&mut self, table: &mut T, at: u64) -> Result<Op, NoMemory>
        requires first { 1 ≤ self.old.k }
        requires session { is_some ((T.meaning table.old).sessions self.old.session) ≡ true }
        ensures op { let t = T.meaning table.old in
            IfOk result (λ o. o ≡ or_fault t.armed self.old.inv word.Refuse
            (expire_op t self.old.inv at (follower_of self.old).follower)) }
        ensures follower { GoesOn result (follower_of self.old) (follower_of self.new) }
        ensures table { let m = follower_of self.old in
            OnOk result (T.meaning table.new
            ≡ settled_as (outcome.Refused code.SessionExpired at 0) [] m (T.meaning table.old)) }
    {
        self.refuse_with(table, Code::SessionExpired, 0, at, &[])
    }

    // settles a refusal where these locks are held
    #[tactic(auto, unfolding(crate::specs::Standing::follower_of), using(fk_settle::proofs::Fitting::fit_refuse, crate::proofs::Answering::refuse_said))]
    fn refuse_with<T: Table>(
        &mut self,
        table: &mut T,
        code: Code,
        place: u32,
        at: u64,
        paths: &[Path],
    ) -> Result<Op, NoMemory>
        requires first { 1 ≤ self.old.k }
        requires session { is_some ((T.meaning table.old).sessions self.old.session) ≡ true }
        ensures op { let t = T.meaning table.old in
            let f = (follower_of self.old).follower in
            IfOk result (λ o. o ≡ or_fault t.armed self.old.inv word.Refuse
            (refuse_on t self.old.inv (refusal_of code place) at f paths.now)) }
        ensures follower { GoesOn result (follower_of self.old) (follower_of self.new) }
        ensures table { let m = follower_of self.old in
            OnOk result (T.meaning table.new
            ≡ settled_as (outcome.Refused code at place) paths.now m (T.meaning table.old)) }
    {
        let outcome = Outcome::Refused { code, at, place };
        let writes = refuse_writes(self.alloc, self.session, self.k, outcome, paths)?;
        let verdict = settle(
            self.alloc,
            table,
            self.session,
            self.k,
            self.inv,
            paths,
            writes.as_slice(),
        )?;
        self.refused(code, place, at, verdict)
    }

    #[tactic(auto, unfolding(crate::specs::Standing::follower_of))]
    fn refused(&mut self, code: Code, place: u32, at: u64, verdict: Verdict) -> Result<Op, NoMemory>
        ensures op { IfOk result (λ o. o
            ≡ refuse_by self.old.inv (refusal_of code place) at verdict) }
        ensures follower { GoesOn result (follower_of self.old) (follower_of self.new) }
    {
        let function = self.inv;
        match verdict {
            Verdict::Done => {
                self.state = State::Reply(Kept::Refused { code, at, place });
                Ok(Op::RefuseOk {
                    function,
                    code,
                    place,
                    at,
                })
            }
            Verdict::Settled(settled) => {
                self.state = State::Session;
                Ok(Op::RefuseSettled {
                    function,
                    code,
                    place,
                    at,
                    settled,
                })
            }
            Verdict::Passed {
                path,
                holder,
                moment,
            } => {
                self.lose(&path, holder, moment)?;
                Ok(Op::RefuseLock {
                    function,
                    code,
                    place,
                    at,
                    path,
                    holder,
                    moment,
                })
            }
            Verdict::Failed => Ok(self.fail(Word::Refuse)),
        }
    }
}
