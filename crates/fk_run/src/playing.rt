//! Playing a deployment: its turns in order, then a last drain.

ghost use Rattle.std.specs.Prelude.{◌≡◌, ◌+◌, ◌<◌, ◌≤◌, ◌^◌, [], length, false, IfOk, OnOk};
ghost use Rattle.fk_limits.specs.Turns.{latest};
ghost use Rattle.fk_script.specs.PrintLaws.{IsMeant};
ghost use Rattle.fk_spec.specs.Plan.{plan_of};
ghost use Rattle.fk_spec.specs.Run.{IsRunOf};
ghost use Rattle.fk_spec.specs.Schedule.{TakesTurn};
ghost use Rattle.fk_spec.specs.Start.{clock_of};
ghost use Rattle.fk_index.specs.Tables.{table_of};
ghost use Rattle.fk_store.specs.Meaning.{new_table};
ghost use Rattle.fk_run.specs.Turns.{IsFit, Takes, clock_turned};

use fk_base::NoMemory;
use fk_index::IndexTable;
use fk_script::{Deployment, Turn};
use fk_store::Table;
use fk_world::World;
use std::alloc::Global;

/// The table of the worlds that are played.
pub type Played = IndexTable;

fn take_turn<T: Table>(world: &mut World<T>, turn: &Turn) -> Result<(), NoMemory>
    requires fit { IsFit (plan_of world.old.deployment) turn.now }
    requires early { clock_of world.old.past + (plan_of world.old.deployment).lock + 1 < 2 ^ 63 }
    ensures taken { OnOk result (TakesTurn (plan_of world.old.deployment) turn.now
        world.old.past world.new.past) }
    ensures clock { OnOk result (clock_of world.new.past
        ≡ clock_turned (plan_of world.old.deployment) turn.now (clock_of world.old.past)) }
    ensures deployment { world.new.deployment ≡ world.old.deployment }
{
    match turn {
        Turn::One(event) => {
            world.apply_event(event)?;
            Ok(())
        }
        Turn::Drain => world.drain(),
    }
}

/// Takes all turns in order, where nothing happened yet.
fn take<T: Table>(world: &mut World<T>, turns: &[Turn]) -> Result<(), NoMemory>
    requires meant { IsMeant world.old.deployment }
    requires turns { turns.now ≡ world.old.deployment.turns }
    requires new { world.old.past ≡ [] }
    ensures taken { OnOk result (Takes (plan_of world.old.deployment) turns.now world.old.past
        world.new.past) }
    ensures clock { OnOk result (clock_of world.new.past
        ≤ latest world.old.deployment (length turns.now)) }
    ensures deployment { world.new.deployment ≡ world.old.deployment }
{
    let mut rest = turns;
    'taking: while let [turn, others @ ..] = rest {
        take_turn(world, turn)?;
        rest = others;
    }
    Ok(())
}

/// Plays a deployment to its end over a new table: its turns in order, then a last drain.
pub fn play<T: Table>(alloc: Global, deployment: Deployment, table: T) -> Result<World<T>, NoMemory>
    requires meant { IsMeant deployment }
    requires table { T.meaning table ≡ new_table (length (plan_of deployment).asks) }
    ensures deployment { IfOk result (λ w. w.deployment ≡ deployment) }
    ensures going { IfOk result (λ w. w.spent ≡ false) }
    ensures run { IfOk result (λ w. IsRunOf deployment w.past) }
{
    let turns = deployment.turns.copy()?;
    let mut world = World::new(alloc, deployment, table)?;
    take(&mut world, turns.as_slice())?;
    world.drain()?;
    Ok(world)
}

/// A new table for a deployment.
fn table_for(alloc: Global, deployment: &Deployment) -> Result<Played, NoMemory>
    requires { IsMeant deployment.now }
    ensures { IfOk result (λ t. table_of t ≡ new_table (length (plan_of deployment.now).asks)) }
{
    let sessions = deployment.clients.as_slice().len() as u32;
    let table = Played::new(alloc, sessions)?;
    Ok(table)
}

/// A world of the deployment, in which nothing happened yet.
pub fn new_world(alloc: Global, deployment: Deployment) -> Result<World<Played>, NoMemory>
    requires meant { IsMeant deployment }
    ensures deployment { IfOk result (λ w. w.deployment ≡ deployment) }
    ensures past { IfOk result (λ w. w.past ≡ []) }
    ensures spent { IfOk result (λ w. w.spent ≡ false) }
{
    let table = table_for(alloc, &deployment)?;
    World::new(alloc, deployment, table)
}

/// Plays a deployment to its end.
pub(crate) fn play_new(alloc: Global, deployment: Deployment) -> Result<World<Played>, NoMemory>
    requires meant { IsMeant deployment }
    ensures deployment { IfOk result (λ w. w.deployment ≡ deployment) }
    ensures going { IfOk result (λ w. w.spent ≡ false) }
    ensures run { IfOk result (λ w. IsRunOf deployment w.past) }
{
    let table = table_for(alloc, &deployment)?;
    play(alloc, deployment, table)
}
