//! Workers on threads.

ghost use Rattle.std.specs.Prelude.{◌≡◌, ◌≤◌, ◌<◌, ◌^◌, [], IfOk};
ghost use Rattle.fk_spec.specs.Lawful.{Lawful};
ghost use Rattle.fk_spec.specs.Start.{clock_of};
ghost use Rattle.fk_live.specs.Undisturbed.{IsUndisturbed};

use crate::cloud::Cloud;
use crate::gate::Gate;
use fk_base::{Clock, NoMemory};
use fk_store::Table;
use fk_world::World;
use std::alloc::Global;
use std::sync::Wait;
use std::thread;
use std::thread::Threads;

/// What a worker does until the world is quiet.
fn work<T: Table, R: Wait, C: Clock, G: Gate>(
    rt: &R,
    cloud: &Cloud<T>,
    clock: &C,
    gate: &G,
    worker: u32,
) -> Result<(), NoMemory>
    requires first { 1 ≤ worker }
    requires last { worker ≤ 16 }
{
    for _ in rt.forever() {
        let Some(event) = cloud.choose(rt, worker, clock.now())? else {
            return Ok(());
        };
        gate.pass(worker, &event);
        cloud.make(rt, worker, &event)?;
    }
    unreachable!()
}

/// Runs so many workers until the world is quiet, and joins them all. Where a thread can't be
/// started, the caller does its work.
pub(crate) fn run<'x, T: Table + Send, R: Threads + Wait + Sync, C: Clock + Sync, G: Gate + Sync>(
    rt: &'x R,
    alloc: Global,
    shared: &'x Cloud<T>,
    workers: u32,
    clock: &'x C,
    gate: &'x G,
) -> Result<(), NoMemory>
    requires first { 1 ≤ workers }
    requires last { workers ≤ 16 }
{
    thread::scope(
        thread::scope_env(),
        rt,
        |scope| -> Result<(), NoMemory>
            requires first { 1 ≤ workers }
            requires last { workers ≤ 16 }
        {
            let mut children = Vec::new(alloc);
            let mut outcome = Ok(());
            for worker in 1..workers {
                let job = move || -> Result<(), NoMemory>
                    requires first { 1 ≤ worker }
                    requires last { worker ≤ 16 }
                { work(rt, shared, clock, gate, worker) };
                match scope.spawn(job) {
                    Ok(child) => {
                        if let Err(full) = children.push(child) {
                            outcome = outcome.and(full.value.join(rt));
                        }
                    }
                    Err(refused) => outcome = outcome.and((refused.value)()),
                }
            }
            outcome = outcome.and(work(rt, shared, clock, gate, workers));
            for child in children {
                outcome = outcome.and(child.join(rt));
            }
            outcome
        },
    )
}

/// Plays a world in which nothing happened yet by so many workers, until it is quiet.
pub fn live<T: Table + Send, R: Threads + Wait + Sync, C: Clock + Sync, G: Gate + Sync>(
    rt: &R,
    alloc: Global,
    world: World<T>,
    workers: u32,
    clock: &C,
    gate: &G,
) -> Result<World<T>, NoMemory>
    requires past { world.past ≡ [] }
    requires first { 1 ≤ workers }
    requires last { workers ≤ 16 }
    ensures lawful { IfOk result (λ w. Lawful w.deployment w.past) }
    ensures undisturbed { IfOk result (λ w. IsUndisturbed w.past) }
    ensures early { IfOk result (λ w. clock_of w.past < 2 ^ 40) }
{
    let cloud = Cloud::new(alloc, world)?;
    run(rt, alloc, &cloud, workers, clock, gate)?;
    Ok(cloud.finish())
}
