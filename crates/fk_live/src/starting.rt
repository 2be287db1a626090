//! The functions that events start.

ghost use Rattle.std.specs.Prelude.{◌≡◌, map};
ghost use Rattle.fk_spec.specs.Start.{started_in};
ghost use Rattle.fk_live.specs.Desk.{started_by, worker_made};

use crate::worker::{Started, Worker};
use fk_print::{Event, Op};

/// The function that an operation starts is the worker's from now on.
pub(crate) fn started_by(event: Event, op: &Op, started: Option<Started>) -> Option<Started>
    ensures { result ≡ started_by event (started_in op.now) started }
{
    match op {
        Op::Follower { function, .. }
        | Op::Leader { function, .. }
        | Op::Teller { function, .. }
        | Op::Beat { function, .. } => Some(Started {
            function: *function,
            event,
        }),
        _ => started,
    }
}

/// A worker behind an event that it made.
pub(crate) fn worker_made(event: Event, op: &Op, worker: Worker) -> Worker
    ensures { result ≡ worker_made event op.now worker }
{
    Worker {
        picked: None,
        started: started_by(event, op, worker.started),
    }
}
