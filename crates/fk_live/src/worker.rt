//! The workers of a desk.

ghost use Rattle.std.specs.Prelude.{◌≡◌, ◌-◌, ◌≤◌, length, set};
ghost use Rattle.fk_live.specs.Choosing.{idle_worker, worker_at};

use fk_print::Event;

/// A function, and the event that started it.
#[derive(Clone, Copy, Debug, PartialEq, Eq)]
pub struct Started {
    pub(crate) function: u64,
    pub(crate) event: Event,
}

/// What a worker has picked and not made yet, and the function that it started last.
#[derive(Clone, Copy, Debug, PartialEq, Eq)]
pub struct Worker {
    pub(crate) picked: Option<Event>,
    pub(crate) started: Option<Started>,
}

/// A worker that did nothing yet.
pub(crate) fn idle_worker() -> Worker
    ensures { result ≡ idle_worker }
{
    Worker {
        picked: None,
        started: None,
    }
}

/// A worker by its number, from 1.
#[tactic(auto, using(crate::proofs::Offering::within))]
pub(crate) fn worker_at(workers: &[Worker], worker: u32) -> Worker
    requires first { 1 ≤ worker }
    requires last { worker ≤ length workers.now }
    ensures { result ≡ worker_at worker workers.now }
{
    workers[worker as usize - 1]
}

/// A worker is this one from now on.
pub(crate) fn set_worker(workers: &mut Vec<Worker>, worker: u32, kept: Worker)
    requires first { 1 ≤ worker }
    requires last { worker ≤ length workers.old.items }
    ensures { workers.new.items ≡ set workers.old.items (worker - 1) kept }
{
    workers[worker as usize - 1] = kept;
}
