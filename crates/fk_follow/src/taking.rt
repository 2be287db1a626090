//! A follower takes the lock of a path.

ghost use Rattle.std.specs.Prelude.{◌≡◌, List, IfOk, OnOk};
ghost use Rattle.fk_base.specs.Path.{PathNames};
ghost use Rattle.fk_print.specs.declared.op.Word.TheVariants as word;
ghost use Rattle.fk_store.specs.Meaning.{lock_of};
ghost use Rattle.fk_tree.specs.Check.{HasFewParts};
ghost use Rattle.fk_follow.specs.Next.{holding, next_with};
ghost use Rattle.fk_spec.specs.Failing.{or_fault};
ghost use Rattle.fk_follow.specs.Operation.{lock_op};
ghost use Rattle.fk_follow.specs.Services.{taken};
ghost use Rattle.fk_follow.specs.Standing.{follower_of};

use crate::follower::Follower;
use crate::granted::Granted;
use crate::reading::{Took, take_lock};
use fk_base::{NoMemory, Path};
use fk_print::{Op, Word};
use fk_store::Table;
use fk_tree::Node;

impl Follower {
    /// It takes the lock of a path.
    #[tactic(auto, unfolding(crate::specs::Standing::follower_of))]
    pub(crate) fn take<T: Table>(
        &mut self,
        table: &mut T,
        path: Path,
        now: u64,
        lock: u64,
    ) -> Result<Op, NoMemory>
        requires parts { HasFewParts self.old.message.request }
        ensures op { let t = T.meaning table.old in
            IfOk result (λ o. o ≡ or_fault t.armed self.old.inv word.Lock
            (lock_op now lock self.old.inv path (lock_of t path))) }
        ensures follower { let t = T.meaning table.old in
            (owned : List PathNames)
            → IfOk result (λ o. follower_of self.new
            ≡ next_with t owned now o (follower_of self.old)) }
        ensures table { let t = T.meaning table.old in
            OnOk result (T.meaning table.new ≡ taken path self.old.inv now lock t) }
    {
        match take_lock(
            self.alloc,
            table,
            &self.message.request,
            &path,
            self.inv,
            now,
            lock,
        )? {
            Took::Failed => Ok(self.fail(Word::Lock)),
            Took::Busy(found) => Ok(Op::LockBusy {
                function: self.inv,
                path,
                holder: found.inv,
                moment: found.moment,
            }),
            Took::Granted { node, last } => {
                self.hold(path.copy()?, node, last, now)?;
                Ok(Op::LockOk {
                    function: self.inv,
                    path,
                })
            }
        }
    }

    // it holds one more lock, and goes on
    #[tactic(auto, unfolding(crate::specs::Standing::follower_of))]
    fn hold(&mut self, path: Path, node: Option<Node>, last: u64, now: u64) -> Result<(), NoMemory>
        requires { HasFewParts self.old.message.request }
        ensures { OnOk result (follower_of self.new ≡ holding
            (record { path = path; node = node; last = last }) now (follower_of self.old)) }
    {
        self.granted.push(Granted {
            path,
            node,
            last,
            moment: now,
        })?;
        self.go_on()
    }
}
