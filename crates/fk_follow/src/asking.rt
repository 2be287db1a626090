//! A follower asks the table for its session's record, and for the session's nodes.

ghost use Rattle.std.specs.Prelude.{◌≡◌, ◌≤◌, ◌≢◌, ℕ, List, true, is_some, length, IfOk, OnOk};
ghost use Rattle.fk_base.specs.Path.{PathNames};
ghost use Rattle.fk_print.specs.declared.op.Op.TheVariants as op;
ghost use Rattle.fk_print.specs.declared.op.Word.TheVariants as word;
ghost use Rattle.fk_store.specs.Conds.{session_of};
ghost use Rattle.fk_store.specs.Meaning.{called};
ghost use Rattle.fk_store.specs.declared.outcome.Outcome.TheVariants as outcome;
ghost use Rattle.fk_tree.specs.Check.{HasFewParts};
ghost use Rattle.fk_follow.specs.Fit.{IsListOf, KeepsOutcome};
ghost use Rattle.fk_follow.specs.Next.{GoesOnAt, GoesOnFrom, next_with};
ghost use Rattle.fk_spec.specs.Failing.{or_fault};
ghost use Rattle.fk_follow.specs.Operation.{session_op, settled_op};
ghost use Rattle.fk_spec.specs.Follower.{unsettled_op};
ghost use Rattle.fk_follow.specs.Standing.{follower_of};

use crate::follower::Follower;
use crate::own_nodes::OwnNodes;
use crate::reading::{owned_at, session_at};
use crate::state::{State, kept_of};
use fk_base::NoMemory;
use fk_print::{Op, Word};
use fk_store::{SessionRecord, Table};

impl Follower {
    /// It asks for its session's record.
    #[tactic(auto, unfolding(crate::specs::Standing::follower_of))]
    pub(crate) fn ask<T: Table>(&mut self, table: &mut T) -> Result<Op, NoMemory>
        requires first { 1 ≤ self.old.k }
        requires parts { HasFewParts self.old.message.request }
        requires session { is_some ((T.meaning table.old).sessions self.old.session) ≡ true }
        requires kept { KeepsOutcome self.old.k
            (session_of (T.meaning table.old) self.old.session) }
        ensures op { let t = T.meaning table.old in
            IfOk result (λ o. o ≡ or_fault t.armed self.old.inv word.Session
            (session_op self.old.inv self.old.k (session_of t self.old.session))) }
        ensures follower { GoesOnAt (T.meaning table.old) result
            (follower_of self.old) (follower_of self.new) }
        ensures table { OnOk result (T.meaning table.new ≡ called (T.meaning table.old)) }
    {
        match session_at(table, self.session)? {
            None => Ok(self.fail(Word::Session)),
            Some(shown) => self.answered(&shown),
        }
    }

    // the record says whether the request is the session's next, its last one, or one that is past
    #[tactic(auto, unfolding(crate::specs::Standing::follower_of), using(fk_settle::proofs::Verdicts::next_is))]
    fn answered(&mut self, shown: &SessionRecord) -> Result<Op, NoMemory>
        requires first { 1 ≤ self.old.k }
        requires parts { HasFewParts self.old.message.request }
        requires kept { KeepsOutcome self.old.k shown.now }
        ensures op { IfOk result (λ o. o ≡ session_op self.old.inv self.old.k shown.now) }
        ensures follower { GoesOnFrom shown.now result
            (follower_of self.old) (follower_of self.new) }
    {
        if shown.settled == self.k - 1 {
            return self.unsettled(shown);
        }
        if shown.settled == self.k {
            return self.settled(shown);
        }
        self.state = State::Ack;
        Ok(Op::SessionPast { function: self.inv })
    }
}

impl Follower {
    // the request is the session's next: it begins, or is refused where the session is closed
    #[tactic(auto, unfolding(crate::specs::Standing::follower_of))]
    fn unsettled(&mut self, shown: &SessionRecord) -> Result<Op, NoMemory>
        requires { HasFewParts self.old.message.request }
        ensures op { IfOk result (λ o. o ≡ unsettled_op self.old.inv shown.now.closed) }
        ensures follower { GoesOnFrom shown.now result
            (follower_of self.old) (follower_of self.new) }
    {
        if shown.closed {
            let at = self.message.seen.max(shown.last);
            self.state = State::Expire { at };
            return Ok(Op::SessionClosed { function: self.inv });
        }
        self.last = shown.last;
        self.begin()?;
        Ok(Op::SessionNew { function: self.inv })
    }

    // the request is the session's last one: a commit is told by a leader, another outcome here
    #[tactic(auto, unfolding(crate::specs::Standing::follower_of))]
    fn settled(&mut self, shown: &SessionRecord) -> Result<Op, NoMemory>
        requires { shown.now.outcome ≢ outcome.Nothing }
        ensures op { IfOk result (λ o. o ≡ settled_op self.old.inv shown.now.outcome) }
        ensures follower { GoesOnFrom shown.now result
            (follower_of self.old) (follower_of self.new) }
    {
        match kept_of(&shown.outcome)? {
            None => {
                self.state = State::Ack;
                Ok(Op::SessionApplied { function: self.inv })
            }
            Some(kept) => {
                self.state = State::Reply(kept);
                Ok(Op::SessionRefused { function: self.inv })
            }
        }
    }

    /// It asks which nodes its session owns.
    #[tactic(auto, unfolding(crate::specs::Standing::follower_of))]
    pub(crate) fn list<T: Table>(&mut self, table: &mut T) -> Result<Op, NoMemory>
        requires parts { HasFewParts self.old.message.request }
        requires session { is_some ((T.meaning table.old).sessions self.old.session) ≡ true }
        ensures op { let t = T.meaning table.old in
            (owned : List PathNames) → IsListOf t self.old.session owned
            → IfOk result (λ o. o ≡ or_fault t.armed self.old.inv word.Owned
            (op.Owned self.old.inv (length owned))) }
        ensures follower { let t = T.meaning table.old in
            (owned : List PathNames) (now : ℕ) → IsListOf t self.old.session owned
            → IfOk result (λ o. follower_of self.new
            ≡ next_with t owned now o (follower_of self.old)) }
        ensures given { let owned = (follower_of self.new).follower.owned in
            OnOk result (IsListOf (T.meaning table.old) self.old.session owned) }
        ensures table { OnOk result (T.meaning table.new ≡ called (T.meaning table.old)) }
    {
        let Some(paths) = owned_at(table, self.session)? else {
            return Ok(self.fail(Word::Owned));
        };
        let count = paths.len() as u64;
        self.owned = OwnNodes::of(self.alloc, paths)?;
        self.go_on()?;
        Ok(Op::Owned {
            function: self.inv,
            count,
        })
    }
}
