//! What a follower does after it was granted some locks.

ghost use Rattle.std.specs.Prelude.{◌≡◌, length, IfOk};
ghost use Rattle.fk_tree.specs.Check.{HasFewParts, check};
ghost use Rattle.fk_tree.specs.Locks.{lock_paths};
ghost use Rattle.fk_tree.specs.Shown.{rows_view};
ghost use Rattle.fk_spec.specs.Follower.{view_of};
ghost use Rattle.fk_spec.specs.Plan.{item_after};
ghost use Rattle.fk_follow.specs.Deciding.{decided_as, state_after};
ghost use Rattle.fk_follow.specs.Standing.{grants_of};

use crate::granted::{Granted, greatest_last};
use crate::locking::few_lock_paths;
use crate::own_nodes::OwnNodes;
use crate::state::State;
use fk_base::{NoMemory, Path};
use fk_settle::closes;
use fk_tree::{CheckFault, Request, Rows, copy_node};
use fk_wire::Sent;
use std::alloc::Global;

/// What the granted records show.
pub fn rows_of(alloc: Global, granted: &[Granted]) -> Result<Rows, NoMemory>
    ensures { IfOk result (λ rows. rows_view rows ≡ view_of (grants_of granted.now)) }
{
    let mut rows = Rows::new(alloc);
    let mut left = granted.len();
    'showing: while left > 0 {
        left -= 1;
        let lock = &granted[left];
        rows.put(lock.path.copy()?, copy_node(&lock.node)?)?;
    }
    Ok(rows)
}

// a copy of the path at this place, from 0
#[tactic(auto, using(crate::proofs::Items::item_here, crate::proofs::Items::item_beyond))]
fn item_copy(paths: &[Path], place: usize) -> Result<Option<Path>, NoMemory>
    ensures { IfOk result (λ o. o ≡ item_after paths.now place) }
{
    if place < paths.len() {
        Ok(Some(paths[place].copy()?))
    } else {
        Ok(None)
    }
}

// it pushes where the check passes on what was granted
fn decide(
    alloc: Global,
    session: u32,
    at: u64,
    request: &Request,
    granted: &[Granted],
) -> Result<State, NoMemory>
    requires { HasFewParts request.now }
    ensures { let view = view_of (grants_of granted.now) in
        IfOk result (λ s. s ≡ decided_as at (check view session request.now)) }
{
    let rows = rows_of(alloc, granted)?;
    match rows.check(session, request) {
        Ok(()) => Ok(State::Push),
        Err(CheckFault::Refused { code, place }) => Ok(State::Refuse { code, place, at }),
        Err(CheckFault::NoMemory) => Err(NoMemory),
    }
}

// the next path to lock, which a close reads from its list
#[tactic(auto, using(crate::proofs::Closing::close_paths, crate::proofs::Closing::few_paths))]
fn next_path(
    alloc: Global,
    owned: &OwnNodes,
    granted: &[Granted],
    request: &Request,
) -> Result<Option<Path>, NoMemory>
    ensures { let paths = lock_paths (view_of (grants_of granted.now)) owned.now request.now in
        IfOk result (λ o. o ≡ item_after paths (length granted.now)) }
{
    if closes(request) {
        return item_copy(owned.locks(), granted.len());
    }
    let paths = few_lock_paths(alloc, granted, request)?;
    item_copy(paths.as_slice(), granted.len())
}

/// The next path to lock, or the decision after the last one.
pub fn next_state(
    alloc: Global,
    session: u32,
    last: u64,
    message: &Sent,
    owned: &OwnNodes,
    granted: &[Granted],
) -> Result<State, NoMemory>
    requires { HasFewParts message.now.request }
    ensures { IfOk result (λ s. s
        ≡ state_after message.now.seen session last owned.now granted.now message.now.request) }
{
    match next_path(alloc, owned, granted, &message.request)? {
        Some(path) => Ok(State::Lock(path)),
        None => {
            let at = message.seen.max(last.max(greatest_last(granted)));
            decide(alloc, session, at, &message.request, granted)
        }
    }
}
