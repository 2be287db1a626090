//! Playing a deployment to its end, by workers.

ghost use Rattle.std.specs.Prelude.{◌≡◌, ◌<◌, ◌^◌, false, IfOk};
ghost use Rattle.fk_words.specs.Workers.{IsCrew};
ghost use Rattle.fk_script.specs.PrintLaws.{IsMeant};
ghost use Rattle.fk_script.specs.Reading.{Means, deployment_of};
ghost use Rattle.fk_spec.specs.Start.{clock_of};
ghost use Rattle.fk_live.specs.Live.{IsFile, IsLiveRunOf};
ghost use Rattle.fk_live.specs.Undisturbed.{IsUndisturbed};

use crate::gate::Gate;
use crate::working::live;
use fk_base::{Bytes, Clock, NoMemory};
use fk_run::{Played, new_world};
use fk_script::{Deployment, ScriptFault, print_script, read_script};
use fk_store::Table;
use fk_world::World;
use std::alloc::Global;
use std::sync::Wait;
use std::thread::Threads;

/// Plays a deployment by so many workers, to its end.
pub(crate) fn play_live<R: Threads + Wait + Sync, C: Clock + Sync, G: Gate + Sync>(
    rt: &R,
    alloc: Global,
    deployment: Deployment,
    workers: u32,
    clock: &C,
    gate: &G,
) -> Result<World<Played>, NoMemory>
    requires meant { IsMeant deployment }
    requires crew { IsCrew workers }
    ensures deployment { IfOk result (λ w. w.deployment ≡ deployment) }
    ensures going { IfOk result (λ w. w.spent ≡ false) }
    ensures run { IfOk result (λ w. IsLiveRunOf w.deployment w.past) }
{
    let text = print_script(alloc, &deployment)?;
    let fresh = new_world(alloc, deployment)?;
    let shared = live(rt, alloc, fresh, workers, clock, gate)?;
    let own = world_of(alloc, shared, &text)?;
    finished(own)
}

/// The world where it is one of the deployment that the text means; else a new one of that. What a
/// lock gives back is some world: that it is of this deployment is tested here.
fn world_of(alloc: Global, world: World<Played>, text: &Bytes) -> Result<World<Played>, NoMemory>
    requires file { IsFile text.now }
    requires undisturbed { IsUndisturbed world.past }
    requires early { clock_of world.past < 2 ^ 40 }
    ensures deployment { IfOk result (λ w. deployment_of text.now ≡ Means w.deployment) }
    ensures undisturbed { IfOk result (λ w. IsUndisturbed w.past) }
    ensures early { IfOk result (λ w. clock_of w.past < 2 ^ 40) }
{
    let own = print_script(alloc, world.deployment())?;
    if own.same(text) {
        return Ok(world);
    }
    new_world(alloc, read_again(alloc, text)?)
}

/// The deployment that a text means.
fn read_again(alloc: Global, text: &Bytes) -> Result<Deployment, NoMemory>
    requires { IsFile text.now }
    ensures { IfOk result (λ d. deployment_of text.now ≡ Means d) }
{
    match read_script(alloc, text.as_slice()) {
        Ok(deployment) => Ok(deployment),
        Err(ScriptFault::NoMemory) => Err(NoMemory),
        Err(ScriptFault::Bad(_, _)) => unreachable!(),
    }
}

/// The world in which nothing is left to do: where something is, it is drained.
fn finished<T: Table>(world: World<T>) -> Result<World<T>, NoMemory>
    requires meant { IsMeant world.deployment }
    requires undisturbed { IsUndisturbed world.past }
    requires early { clock_of world.past < 2 ^ 40 }
    ensures deployment { IfOk result (λ w. w.deployment ≡ world.deployment) }
    ensures going { IfOk result (λ w. w.spent ≡ false) }
    ensures run { IfOk result (λ w. IsLiveRunOf w.deployment w.past) }
{
    if world.spent() {
        return Err(NoMemory);
    }
    match world.next_of_drain() {
        None => Ok(world),
        Some(_) => drained(world),
    }
}

/// The world after a drain.
fn drained<T: Table>(mut world: World<T>) -> Result<World<T>, NoMemory>
    requires meant { IsMeant world.deployment }
    requires undisturbed { IsUndisturbed world.past }
    requires early { clock_of world.past < 2 ^ 40 }
    ensures deployment { IfOk result (λ w. w.deployment ≡ world.deployment) }
    ensures going { IfOk result (λ w. w.spent ≡ false) }
    ensures run { IfOk result (λ w. IsLiveRunOf w.deployment w.past) }
{
    world.drain()?;
    Ok(world)
}
