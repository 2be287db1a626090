//! The transaction that commits a push, whoever makes it.

ghost use Rattle.std.specs.Prelude.{◌≡◌, ◌≤◌, true, is_some, IfOk, OnOk};
ghost use Rattle.fk_tree.specs.Sorted.{in_path_order};
ghost use Rattle.fk_settle.specs.Transaction.{committed};
ghost use Rattle.fk_settle.specs.Verdicts.{verdict_of};

use crate::ordering::in_order;
use crate::settling::{Verdict, settle};
use crate::writing::commit_writes;
use fk_base::NoMemory;
use fk_store::Table;
use fk_wire::Pushed;
use std::alloc::Global;

/// Commits a push under its number, where its request is the session's next to settle and its own
/// invocation holds its locks.
#[tactic(auto, using(crate::proofs::Fitting::fit_commit))]
pub fn commit<T: Table>(
    alloc: Global,
    table: &mut T,
    tx: u64,
    push: &Pushed,
) -> Result<Verdict, NoMemory>
    requires first { 1 ≤ push.now.k }
    requires session { is_some ((T.meaning table.old).sessions push.now.session) ≡ true }
    ensures verdict { let paths = in_path_order push.now.paths in
        IfOk result (λ v. v ≡ verdict_of (T.meaning table.old)
        push.now.session push.now.k push.now.inv paths) }
    ensures table { OnOk result (T.meaning table.new
        ≡ committed tx push.now (T.meaning table.old)) }
{
    let paths = in_order(alloc, push.paths.as_slice())?;
    let writes = commit_writes(alloc, tx, push, paths.as_slice())?;
    settle(
        alloc,
        table,
        push.session,
        push.k,
        push.inv,
        paths.as_slice(),
        writes.as_slice(),
    )
}
