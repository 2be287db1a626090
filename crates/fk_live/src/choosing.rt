//! Which event a worker is given.

ghost use Rattle.std.specs.Prelude.{◌≡◌, ◌+◌, ◌≤◌, ◌<◌, ◌^◌, ◌++◌, true, false, length};
ghost use Rattle.fk_law_schedule.specs.Computed.{same_event};
ghost use Rattle.fk_spec.specs.Next.{names_client};
ghost use Rattle.fk_spec.specs.Plan.{plan_of};
ghost use Rattle.fk_spec.specs.Start.{or_else};
ghost use Rattle.fk_live.specs.Choosing.{candidates, choice, deliveries, first_free, has_event};
ghost use Rattle.fk_live.specs.Choosing.{is_flying, is_free, is_picked, is_ready, is_taken, is_worked};
ghost use Rattle.fk_live.specs.Choosing.{moment_of, own_step, turns};

use crate::pick::Pick;
use crate::worker::{Started, Worker};
use fk_print::Event;
use fk_script::Block;
use fk_store::Table;
use fk_world::World;

/// The last moment that a clock's event of a worker names.
const LAST_MOMENT: u64 = 1_099_511_627_775;

/// Moments beyond the last count as the last.
pub(crate) fn moment_of(now: u64) -> u64
    ensures { result ≡ moment_of now }
{
    now.min(LAST_MOMENT)
}

/// Whether it is this event.
pub(crate) fn same_event(one: &Event, other: &Event) -> bool
    ensures { result ≡ same_event one.now other.now }
{
    *one == *other
}

/// Whether this event is picked.
pub(crate) fn is_picked(event: &Event, picked: Option<Event>) -> bool
    ensures { result ≡ is_picked event.now picked }
{
    match picked {
        None => false,
        Some(other) => same_event(&other, event),
    }
}

// Whether a function is in flight: then a crash would end it.
#[tactic(auto, using(crate::proofs::Keeping::flying_is))]
fn is_flying<T: Table>(world: &World<T>, function: u64) -> bool
    requires { world.now.spent ≡ false }
    ensures { result ≡ is_flying (plan_of world.now.deployment) world.now.past function }
{
    world.ready(&Event::Crash(function))
}

fn is_worked<T: Table>(world: &World<T>, event: &Event, started: Option<Started>) -> bool
    requires { world.now.spent ≡ false }
    ensures { result ≡ is_worked (plan_of world.now.deployment) world.now.past event.now started }
{
    match started {
        None => false,
        Some(own) => same_event(&own.event, event) && is_flying(world, own.function),
    }
}

fn has_event<T: Table>(world: &World<T>, event: &Event, worker: &Worker) -> bool
    requires { world.now.spent ≡ false }
    ensures { result ≡ has_event (plan_of world.now.deployment) world.now.past event.now
        worker.now }
{
    is_picked(event, worker.picked) || is_worked(world, event, worker.started)
}

fn is_taken<T: Table>(world: &World<T>, event: &Event, workers: &[Worker]) -> bool
    requires { world.now.spent ≡ false }
    ensures { result ≡ is_taken (plan_of world.now.deployment) world.now.past event.now
        workers.now }
{
    match workers {
        [] => false,
        [worker, rest @ ..] => has_event(world, event, worker) || is_taken(world, event, rest),
    }
}

fn is_free<T: Table>(world: &World<T>, workers: &[Worker], event: &Event) -> bool
    requires unspent { world.now.spent ≡ false }
    requires named { names_client (plan_of world.now.deployment) event.now ≡ true }
    ensures { result ≡ is_free (plan_of world.now.deployment) world.now.past workers.now
        event.now }
{
    world.ready(event) && !is_taken(world, event, workers)
}

// the first free delivery to a follower, for the clients from this one on
#[tactic(auto, using(crate::proofs::Offering::client_named))]
fn free_delivery<T: Table>(
    world: &World<T>,
    workers: &[Worker],
    blocks: &[Block],
    client: u32,
) -> Option<Event>
    requires unspent { world.now.spent ≡ false }
    requires first { 1 ≤ client }
    requires named { client + length blocks.now
        ≤ length (plan_of world.now.deployment).asks + 1 }
    requires few { client + length blocks.now < 2 ^ 32 }
    ensures { result ≡ first_free (plan_of world.now.deployment) world.now.past workers.now
        (deliveries blocks.now client) }
{
    match blocks {
        [] => None,
        [_, rest @ ..] => {
            let event = Event::Deliver(client);
            if is_free(world, workers, &event) {
                Some(event)
            } else {
                free_delivery(world, workers, rest, client + 1)
            }
        }
    }
}

// the first free turn of the clients from this one on
#[tactic(auto, using(crate::proofs::Offering::client_named))]
fn free_turn<T: Table>(
    world: &World<T>,
    workers: &[Worker],
    blocks: &[Block],
    client: u32,
) -> Option<Event>
    requires unspent { world.now.spent ≡ false }
    requires first { 1 ≤ client }
    requires named { client + length blocks.now
        ≤ length (plan_of world.now.deployment).asks + 1 }
    requires few { client + length blocks.now < 2 ^ 32 }
    ensures { result ≡ first_free (plan_of world.now.deployment) world.now.past workers.now
        (turns blocks.now client) }
{
    match blocks {
        [] => None,
        [_, rest @ ..] => {
            let event = Event::Client(client);
            if is_free(world, workers, &event) {
                Some(event)
            } else {
                free_turn(world, workers, rest, client + 1)
            }
        }
    }
}

// the first free event of the clients
#[tactic(auto, using(crate::proofs::Offering::first_there, crate::proofs::Offering::first_behind, crate::proofs::Offering::clients_named, crate::proofs::Keeping::clients_few))]
fn free_of_clients<T: Table>(world: &World<T>, workers: &[Worker]) -> Option<Event>
    requires unspent { world.now.spent ≡ false }
    ensures { result ≡ first_free (plan_of world.now.deployment) world.now.past workers.now
        (deliveries world.now.deployment.clients 1 ++ turns world.now.deployment.clients 1) }
{
    let blocks = world.deployment().clients.as_slice();
    match free_delivery(world, workers, blocks, 1) {
        Some(event) => Some(event),
        None => free_turn(world, workers, blocks, 1),
    }
}

// the first event that is free
fn first_free<T: Table>(world: &World<T>, workers: &[Worker]) -> Option<Event>
    requires unspent { world.now.spent ≡ false }
    ensures { result ≡ first_free (plan_of world.now.deployment) world.now.past workers.now
        (candidates world.now.deployment.clients) }
{
    if is_free(world, workers, &Event::Watch) {
        return Some(Event::Watch);
    }
    if is_free(world, workers, &Event::Leader) {
        return Some(Event::Leader);
    }
    free_of_clients(world, workers)
}

// a step of the function that a worker started, while it is in flight
fn own_step<T: Table>(world: &World<T>, started: Option<Started>) -> Option<Event>
    requires unspent { world.now.spent ≡ false }
    ensures { result ≡ own_step (plan_of world.now.deployment) world.now.past started }
{
    match started {
        None => None,
        Some(own) => {
            if is_flying(world, own.function) {
                Some(Event::Step(own.function))
            } else {
                None
            }
        }
    }
}

// the event of a worker that has picked none
fn next_event<T: Table>(
    world: &World<T>,
    workers: &[Worker],
    started: Option<Started>,
) -> Option<Event>
    requires unspent { world.now.spent ≡ false }
    ensures { result ≡ or_else
        (own_step (plan_of world.now.deployment) world.now.past started)
        (first_free (plan_of world.now.deployment) world.now.past workers.now
        (candidates world.now.deployment.clients)) }
{
    match own_step(world, started) {
        Some(event) => Some(event),
        None => first_free(world, workers),
    }
}

/// What a worker that has picked nothing is given.
pub(crate) fn choice<T: Table>(world: &World<T>, workers: &[Worker], worker: &Worker) -> Pick
    requires unspent { world.now.spent ≡ false }
    ensures { result ≡ choice (plan_of world.now.deployment) world.now.deployment.clients
        world.now.past workers.now worker.now }
{
    match next_event(world, workers, worker.started) {
        Some(event) => Pick::Make(event),
        None => Pick::Wait,
    }
}
