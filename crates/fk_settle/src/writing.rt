//! What the transactions that settle a request write.

ghost use Rattle.std.specs.Prelude.{◌≡◌, ◌++◌, IfOk, OnOk};
ghost use Rattle.fk_tree.specs.Edit.{closes};
ghost use Rattle.fk_tree.specs.Sorted.{in_path_order};
ghost use Rattle.fk_settle.specs.Transaction.{applied_as, change_writes, close_writes, commit_writes, refuse_writes, release_writes};

use fk_base::{NoMemory, Path};
use fk_store::{Outcome, Write};
use fk_tree::{Applied, Edit, Request, effects};
use fk_wire::Pushed;
use std::alloc::Global;

fn push_changes(
    writes: &mut Vec<Write>,
    tx: u64,
    moment: u64,
    edits: &[Edit],
) -> Result<(), NoMemory>
    ensures { OnOk result (writes.new.items
        ≡ writes.old.items ++ change_writes tx moment edits.now) }
{
    'changing: for edit in edits {
        writes.push(Write::Change {
            change: edit.copy()?,
            tx,
            moment,
        })?;
    }
    Ok(())
}

fn push_releases(writes: &mut Vec<Write>, paths: &[Path]) -> Result<(), NoMemory>
    ensures { OnOk result (writes.new.items ≡ writes.old.items ++ release_writes paths.now) }
{
    'releasing: for path in paths {
        writes.push(Write::Release(path.copy()?))?;
    }
    Ok(())
}

/// Whether a request closes its session.
pub fn closes(request: &Request) -> bool
    ensures { result ≡ closes request.now }
{
    match request {
        Request::Close { .. } => true,
        Request::Create { .. } | Request::Set { .. } | Request::Delete { .. } | Request::Multi(_) =>
            false,
    }
}

fn push_close(writes: &mut Vec<Write>, session: u32, request: &Request) -> Result<(), NoMemory>
    ensures { OnOk result (writes.new.items
        ≡ writes.old.items ++ close_writes session request.now) }
{
    if closes(request) {
        writes.push(Write::CloseSession(session))?;
    }
    Ok(())
}

/// A push as it is applied under its number
pub fn applied_as(tx: u64, push: &Pushed) -> Result<Applied, NoMemory>
    ensures { IfOk result (λ a. a ≡ applied_as tx push.now) }
{
    Ok(Applied {
        tx,
        moment: push.moment,
        session: push.session,
        k: push.k,
        request: push.request.copy()?,
        name: push.name.copy()?,
        version: push.version,
        gone: push.gone.copy()?,
        made: push.made.copy()?,
    })
}

/// What the commit of a push writes, where these are its paths in path order.
pub fn commit_writes(
    alloc: Global,
    tx: u64,
    push: &Pushed,
    paths: &[Path],
) -> Result<Vec<Write>, NoMemory>
    requires { paths.now ≡ in_path_order push.now.paths }
    ensures { IfOk result (λ ws. ws.items ≡ commit_writes tx push.now) }
{
    let edits = effects(alloc, &applied_as(tx, push)?)?;
    let mut writes = Vec::new(alloc);
    push_changes(&mut writes, tx, push.moment, edits.as_slice())?;
    writes.push(Write::AddPending {
        session: push.session,
        tx,
    })?;
    push_releases(&mut writes, paths)?;
    writes.push(Write::Settle {
        session: push.session,
        k: push.k,
        outcome: Outcome::Applied(tx),
    })?;
    push_close(&mut writes, push.session, &push.request)?;
    Ok(writes)
}

/// What settles a request with an outcome and releases these locks.
pub fn refuse_writes(
    alloc: Global,
    session: u32,
    k: u64,
    outcome: Outcome,
    held: &[Path],
) -> Result<Vec<Write>, NoMemory>
    ensures { IfOk result (λ ws. ws.items ≡ refuse_writes session k outcome held.now) }
{
    let mut writes = Vec::new(alloc);
    push_releases(&mut writes, held)?;
    writes.push(Write::Settle {
        session,
        k,
        outcome,
    })?;
    Ok(writes)
}
