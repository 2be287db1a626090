//! A leader sweeps the watches.

ghost use Rattle.std.specs.Prelude.{◌≡◌, ◌≢◌, IfOk, OnOk};
ghost use Rattle.fk_print.specs.declared.op.Word.TheVariants as word;
ghost use Rattle.fk_watch.specs.Kept.{watches_of};
ghost use Rattle.fk_watch.specs.declared.answer.Sweep.TheVariants as sweep;
ghost use Rattle.fk_lead.specs.Meaning.{Swept, paths_of, touches_of};
ghost use Rattle.fk_lead.specs.Next.{having_swept, next_with};
ghost use Rattle.fk_spec.specs.Failing.{or_fault};
ghost use Rattle.fk_lead.specs.Operation.{sweep_op};
ghost use Rattle.fk_lead.specs.Said.{sweep_by, swept_by};
ghost use Rattle.fk_lead.specs.Standing.{leader_of};
ghost use Rattle.fk_lead.specs.Sweeping.{IsSweepOf, swept_at};
ghost use Rattle.fk_tree.specs.Touch.{edit_paths, edited_paths};

use crate::leader::Leader;
use fk_base::{NoMemory, Path};
use fk_print::{Op, Word};
use fk_settle::in_order;
use fk_tree::{Applied, Edit, effects, touched};
use fk_user::IdSet;
use fk_watch::{Sweep, WatchTable};
use fk_wire::FiredList;
use std::alloc::Global;
use std::collections::VecDeque;

// the paths of edits, in their order
fn edit_paths(alloc: Global, edits: &[Edit]) -> Result<Vec<Path>, NoMemory>
    ensures { IfOk result (λ ps. ps.items ≡ edit_paths edits.now) }
{
    let mut paths = Vec::new(alloc);
    'listing: for edit in edits {
        paths.push(edit.path.copy()?)?;
    }
    Ok(paths)
}

// the paths that an applied request edits, in path order
fn edited_paths(alloc: Global, applied: &Applied) -> Result<Vec<Path>, NoMemory>
    ensures { IfOk result (λ ps. ps.items ≡ edited_paths applied.now) }
{
    let edits = effects(alloc, applied)?;
    let paths = edit_paths(alloc, edits.as_slice())?;
    in_order(alloc, paths.as_slice())
}

impl Leader {
    /// It sweeps the watches for its push.
    #[tactic(auto, unfolding(crate::specs::Standing::leader_of))]
    pub(crate) fn sweep(&mut self, watches: &mut WatchTable) -> Result<Op, NoMemory>
        ensures op { let m = leader_of self.old in
            let w = watches_of watches.old in
            (s : Swept) → IsSweepOf m.tx (touches_of m) w s
            → IfOk result (λ o. o ≡ or_fault w.armed m.inv word.Sweep
            (sweep_op w m.inv m.tx s.fired)) }
        ensures leader { let m = leader_of self.old in
            (s : Swept) → IsSweepOf m.tx (touches_of m) (watches_of watches.old) s
            → IfOk result (λ o. leader_of self.new ≡ next_with s o m) }
        ensures given { let m = leader_of self.old in
            let w = watches_of watches.old in
            OnOk result (IsSweepOf m.tx (touches_of m) w (leader_of self.new).swept) }
        ensures watches { let m = leader_of self.old in
            OnOk result (watches_of watches.new
            ≡ swept_at m.tx (touches_of m) (watches_of watches.old)) }
    {
        let applied = self.applied()?;
        let touches = touched(self.alloc, &applied)?;
        let paths = edited_paths(self.alloc, &applied)?;
        let answer = watches.sweep(self.tx, &touches);
        self.swept(answer, VecDeque::from(paths))
    }

    // it goes on to the paths that its push edits
    #[tactic(auto, unfolding(crate::specs::Standing::leader_of))]
    fn swept(&mut self, answer: Sweep, paths: VecDeque<Path>) -> Result<Op, NoMemory>
        requires { paths.items ≡ paths_of (leader_of self.old) }
        ensures some { IfOk result (λ o. answer ≢ sweep.NoMemory) }
        ensures op { IfOk result (λ o. o ≡ sweep_by self.old.inv self.old.tx answer) }
        ensures leader { IfOk result (λ o. leader_of self.new
            ≡ next_with (swept_by answer) o (leader_of self.old)) }
    {
        let function = self.inv;
        let tx = self.tx;
        match answer {
            Sweep::Fired { fired, epoch } => {
                let count = fired.as_slice().len() as u64;
                self.keep(fired, epoch, paths);
                Ok(Op::SweepOk {
                    function,
                    tx,
                    fired: count,
                })
            }
            Sweep::Already {
                swept,
                fired,
                epoch,
            } => {
                let count = fired.as_slice().len() as u64;
                self.keep(fired, epoch, paths);
                Ok(Op::SweepMiss {
                    function,
                    tx,
                    swept,
                    fired: count,
                })
            }
            Sweep::Failed => Ok(self.fail(Word::Sweep)),
            Sweep::NoMemory => Err(NoMemory),
        }
    }

    // it keeps what its sweep gave
    #[tactic(auto, unfolding(crate::specs::Standing::leader_of))]
    fn keep(&mut self, fired: FiredList, epoch: IdSet, paths: VecDeque<Path>)
        requires { paths.items ≡ paths_of (leader_of self.old) }
        ensures { let swept : Swept = record { fired = fired; epoch = epoch } in
            leader_of self.new ≡ having_swept swept (leader_of self.old) }
    {
        self.fired = fired;
        self.epoch = epoch;
        self.others = paths;
        self.put_next();
    }
}
