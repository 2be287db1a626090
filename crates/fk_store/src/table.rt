use crate::answer::{Owned, Seen, Taken, Transact};
use crate::cond::Cond;
use crate::node_record::NodeRecord;
use crate::session_record::SessionRecord;
use crate::write::Write;
use fk_base::Path;

/// A conditional table. It means a finite map from paths to node records, a record for each session,
/// and a number done. A call that may fail answers `Failed` exactly where the table is armed; it then
/// changes nothing else, raises the count of faults and calms the table.
pub trait Table: Drop {
    ghost use Rattle.std.specs.Prelude.{◌≡◌, true, is_some, IsTrue};
    ghost use Rattle.std.specs.Borrow.{sem};
    ghost use Rattle.std.specs.Io.BufRead.{Rests};
    ghost use Rattle.fk_store.specs.Meaning.{Meaning, armed, called, calmed};
    ghost use Rattle.fk_store.specs.Conds.{are_fit_conds};
    ghost use Rattle.fk_store.specs.Writes.{are_fit_writes};
    ghost use Rattle.fk_store.specs.Answers.{after_take, after_transact, IsNodeSeen, IsOwned, IsSessionSeen, IsTaken, IsTransact};

    /// What the table means.
    ghost meaning: { Self → Meaning };

    /// The record of a path. May fail.
    fn node(&mut self, path: &Path) -> Seen<'_, NodeRecord>
        ensures seen { IsNodeSeen (meaning self.old) path.now result }
        ensures* after { sem 𝓛 (Rests Self.row self.entry (λ new. meaning new ≡ called (meaning self.old))) };

    /// The record of a session. May fail.
    fn session(&mut self, session: u32) -> Seen<'_, SessionRecord>
        ensures seen { IsSessionSeen (meaning self.old) session result }
        ensures* after { sem 𝓛 (Rests Self.row self.entry (λ new. meaning new ≡ called (meaning self.old))) };

    /// The paths whose node has this owner, in path order. May fail.
    fn owned(&mut self, session: u32) -> Owned
        requires { is_some ((meaning self.old).sessions session) ≡ true }
        ensures owned { IsOwned (meaning self.old) session result }
        ensures after { meaning self.new ≡ called (meaning self.old) };

    /// Makes all the writes, in order and as one step, where all conditions hold. May fail.
    fn transact(&mut self, conds: &[Cond], writes: &[Write]) -> Transact
        requires conds { are_fit_conds (meaning self.old) conds.now ≡ true }
        requires writes { are_fit_writes (meaning self.old) writes.now ≡ true }
        ensures answer { IsTransact (meaning self.old) conds.now result }
        ensures after { meaning self.new ≡ after_transact (meaning self.old) writes.now result };

    /// Grants the path's lock to an invocation where it may be granted, as one step. May fail.
    fn take(&mut self, path: &Path, inv: u64, now: u64, lock: u64) -> Taken<'_>
        ensures taken { IsTaken (meaning self.old) path.now inv now lock result }
        ensures* after { sem 𝓛 (Rests Self.row self.entry (λ new. meaning new ≡ after_take (meaning self.old) path.now inv now result)) };

    /// The number done.
    fn last_done(&self) -> u64
        ensures { result ≡ (meaning self.now).done };

    /// The next call that may fail does.
    fn arm(&mut self)
        ensures { meaning self.new ≡ armed (meaning self.old) };

    /// The next call doesn't fail.
    fn calm(&mut self)
        ensures { meaning self.new ≡ calmed (meaning self.old) };

    /// How often a call failed.
    fn faults(&self) -> u64
        ensures { result ≡ (meaning self.now).faults };
}
