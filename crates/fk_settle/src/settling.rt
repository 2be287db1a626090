//! A transaction that settles a request: its conditions, and what became of it.

ghost use Rattle.std.specs.Prelude.{◌≡◌, ◌≤◌, true, is_some, IfOk, OnOk, MatchOption, Some, None};
ghost use Rattle.fk_store.specs.Writes.{are_fit_writes};
ghost use Rattle.fk_settle.specs.Missing.{found_from, path_from};
ghost use Rattle.fk_settle.specs.Verdicts.{verdict_of};
ghost use Rattle.fk_settle.specs.Transaction.{settle_conds, transacted};

use fk_base::{NoMemory, Path};
use fk_store::{Cond, Found, Table, Transact, Write};
use std::alloc::Global;

/// What becomes of a transaction that settles a request.
#[derive(Drop)]
pub enum Verdict {
    Done,
    /// This request was settled last, and not the one before it.
    Settled(u64),
    /// The lock of this path had passed on.
    Passed {
        path: Path,
        holder: u64,
        moment: u64,
    },
    Failed,
}

/// Request k is the session's next to settle, and the locks of these paths are held by the
/// invocation.
pub fn settle_conds(
    alloc: Global,
    session: u32,
    k: u64,
    inv: u64,
    paths: &[Path],
) -> Result<Vec<Cond>, NoMemory>
    requires { 1 ≤ k }
    ensures { IfOk result (λ cs. cs.items ≡ settle_conds session k inv paths.now) }
{
    let mut conds = Vec::new(alloc);
    conds.push(Cond::Settled { session, at: k - 1 })?;
    'holding: for path in paths {
        conds.push(Cond::Holds {
            path: path.copy()?,
            inv,
        })?;
    }
    Ok(conds)
}

// the path whose condition has this place
fn path_at(paths: &[Path], place: usize) -> Option<&Path>
    ensures { let at = path_from 1 place paths.now in
        MatchOption result (at ≡ None) (λ p. at ≡ Some p.now) }
{
    'seeking: for (before, path) in paths.iter().enumerate() {
        if place == before + 1 {
            return Some(path);
        }
    }
    None
}

// the verdict where the condition at this place failed
fn missed(paths: &[Path], place: usize, found: Found) -> Result<Verdict, NoMemory>
    ensures { IfOk result (λ v. v ≡ found_from 1 paths.now place found) }
{
    match found {
        Found::Number(settled) => Ok(Verdict::Settled(settled)),
        Found::Lock(lock) => match path_at(paths, place) {
            None => Ok(Verdict::Failed),
            Some(path) => Ok(Verdict::Passed {
                path: path.copy()?,
                holder: lock.inv,
                moment: lock.moment,
            }),
        },
    }
}

/// Makes the writes, where request k is the session's next to settle and the invocation holds the
/// locks of these paths.
#[tactic(auto, using(crate::proofs::Verdicts::fit_conds, crate::proofs::Verdicts::answer_is, crate::proofs::Verdicts::transacted_is))]
pub fn settle<T: Table>(
    alloc: Global,
    table: &mut T,
    session: u32,
    k: u64,
    inv: u64,
    paths: &[Path],
    writes: &[Write],
) -> Result<Verdict, NoMemory>
    requires first { 1 ≤ k }
    requires session { is_some ((T.meaning table.old).sessions session) ≡ true }
    requires writes { are_fit_writes (T.meaning table.old) writes.now ≡ true }
    ensures verdict { let t = T.meaning table.old in
        IfOk result (λ v. v ≡ verdict_of t session k inv paths.now) }
    ensures table { let conds = settle_conds session k inv paths.now in
        OnOk result (T.meaning table.new
        ≡ transacted conds writes.now (T.meaning table.old)) }
{
    let conds = settle_conds(alloc, session, k, inv, paths)?;
    match table.transact(conds.as_slice(), writes) {
        Transact::Done => Ok(Verdict::Done),
        Transact::Missed { place, found } => missed(paths, place, found),
        Transact::Failed => Ok(Verdict::Failed),
        Transact::NoMemory => Err(NoMemory),
    }
}
