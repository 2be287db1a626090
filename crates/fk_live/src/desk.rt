//! The desk: one world, and what its workers have picked and started.

ghost use Rattle.std.specs.Prelude.{◌≡◌, ◌≤◌, ◌<◌, ◌^◌, ◌↔◌, [], Some, true, false, length};
ghost use Rattle.std.specs.Prelude.{replicate, IsTrue, IfOk, OnErr, OnOk};
ghost use Rattle.fk_spec.specs.Lawful.{Lawful};
ghost use Rattle.fk_spec.specs.Next.{names_client, next_entry, next_op};
ghost use Rattle.fk_spec.specs.Plan.{plan_of};
ghost use Rattle.fk_spec.specs.Start.{clock_of};
ghost use Rattle.fk_agree_engine.specs.Playing.{IsMoment};
ghost use Rattle.fk_world.specs.World.{Stops};
ghost use Rattle.fk_world.specs.Clocks.{clock_shown};
ghost use Rattle.fk_live.specs.Choosing.{idle_worker, worker_at};
ghost use Rattle.fk_live.specs.Desk.{goes_on, makes_where, noted, picks, shown_in, worker_made};
ghost use Rattle.fk_live.specs.Undisturbed.{IsUndisturbed};

use crate::choosing::{choice, is_picked, moment_of};
use crate::pick::Pick;
use crate::starting::worker_made;
use crate::worker::{Worker, idle_worker, set_worker, worker_at};
use fk_base::NoMemory;
use fk_print::Event;
use fk_store::Table;
use fk_world::World;
use std::alloc::Global;
use std::marker::Model;

/// How many workers a desk has.
const WORKERS: usize = 16;

/// A world, and its sixteen workers, which are numbered from 1.
#[derive(Drop)]
pub struct Desk<T: Table> {
    world: World<T>,
    workers: Vec<Worker>,
}

impl<T: Table> Model for Desk<T> {
    ghost use Rattle.fk_live.specs.Desk.{IsDesk, View};

    ghost Value = { View };

    ghost view = { λ d. record { world = d.world; workers = d.workers.items } };

    ghost invariant = { λ d. IsDesk d.world.deployment d.world.past d.workers.items };
}

impl<T: Table> Desk<T> {
    /// A desk over a world in which nothing happened yet. No worker has picked or started anything.
    pub fn new(alloc: Global, world: World<T>) -> Result<Desk<T>, NoMemory>
        requires { world.past ≡ [] }
        ensures world { IfOk result (λ d. d.world ≡ world) }
        ensures workers { IfOk result (λ d. d.workers ≡ replicate 16 idle_worker) }
    {
        let workers = vec![in alloc; idle_worker(); WORKERS]?;
        Ok(Desk { world, workers })
    }

    /// Which event a worker makes next, at this moment of a clock outside: the one that it has
    /// picked and not made; else a step of the function in flight that it started; else the first
    /// that would make an operation and that no other worker has. After `NoMemory` no event is
    /// picked anew, and the world is spent.
    pub fn pick(&mut self, worker: u32, now: u64) -> Result<Pick, NoMemory>
        requires first { 1 ≤ worker }
        requires last { worker ≤ 16 }
        ensures unspent { OnOk result (self.old.world.spent ≡ false) }
        ensures pick { IfOk result (λ x. x ≡ (picks worker now self.old).pick) }
        ensures after { OnOk result (self.new ≡ (picks worker now self.old).desk) }
        ensures stopped { OnErr result (Stops self.old.world self.new.world) }
        ensures deployment { self.new.world.deployment ≡ self.old.world.deployment }
        ensures kept { OnErr result (self.new.workers ≡ self.old.workers) }
    {
        if self.world.spent() {
            return Err(NoMemory);
        }
        let own = worker_at(self.workers.as_slice(), worker);
        if let Some(event) = own.picked {
            return Ok(Pick::Make(event));
        }
        if self.world.quiet() {
            return Ok(Pick::Quiet);
        }
        show(&mut self.world, now)?;
        let choice = choice(&self.world, self.workers.as_slice(), &own);
        note(&mut self.workers, worker, own, choice);
        Ok(choice)
    }

    /// Makes the event where it is the one that the worker has picked, and tells whether it is.
    /// After `NoMemory` the world is spent, and the picked events are as before.
    pub fn make(&mut self, worker: u32, event: &Event) -> Result<bool, NoMemory>
        requires first { 1 ≤ worker }
        requires last { worker ≤ 16 }
        ensures unspent { OnOk result (self.old.world.spent ≡ false) }
        ensures asked { IfOk result (λ b. IsTrue b
            ↔ ((worker_at worker self.old.workers).picked ≡ Some event.now)) }
        ensures after { IfOk result (λ b. self.new ≡ makes_where b worker event.now self.old) }
        ensures stopped { OnErr result (Stops self.old.world self.new.world) }
        ensures deployment { self.new.world.deployment ≡ self.old.world.deployment }
        ensures kept { OnErr result (self.new.workers ≡ self.old.workers) }
    {
        if self.world.spent() {
            return Err(NoMemory);
        }
        let own = worker_at(self.workers.as_slice(), worker);
        if !is_picked(event, own.picked) {
            return Ok(false);
        }
        let made = make_event(&mut self.world, event, own)?;
        set_worker(&mut self.workers, worker, made);
        Ok(true)
    }

    /// The world.
    #[tactic(auto, using(crate::proofs::Keeping::past_is_lawful))]
    pub fn world(&self) -> &World<T>
        ensures same { result.now ≡ self.now.world }
        ensures lawful { Lawful result.now.deployment result.now.past }
        ensures undisturbed { IsUndisturbed result.now.past }
        ensures early { clock_of result.now.past < 2 ^ 40 }
    {
        &self.world
    }

    /// The world, from now on without workers.
    #[tactic(auto, using(crate::proofs::Keeping::past_is_lawful))]
    pub(crate) fn into_world(self) -> World<T>
        ensures same { result ≡ self.world }
        ensures lawful { Lawful result.deployment result.past }
        ensures undisturbed { IsUndisturbed result.past }
        ensures early { clock_of result.past < 2 ^ 40 }
    {
        self.world
    }
}

// the clock shows this moment, where it is beyond what it shows
fn show<T: Table>(world: &mut World<T>, now: u64) -> Result<(), NoMemory>
    requires { world.old.spent ≡ false }
    ensures shown { OnOk result (world.new ≡ shown_in now world.old) }
    ensures stopped { OnErr result (Stops world.old world.new) }
    ensures deployment { world.new.deployment ≡ world.old.deployment }
{
    let moment = moment_of(now);
    if world.clock() < moment {
        world.apply_event(&Event::Clock(moment))?;
    }
    Ok(())
}

// an event that a worker is to make is the one that it has picked
fn note(workers: &mut Vec<Worker>, worker: u32, own: Worker, choice: Pick)
    requires first { 1 ≤ worker }
    requires last { worker ≤ length workers.old.items }
    ensures { workers.new.items ≡ noted worker own choice workers.old.items }
{
    if let Pick::Make(event) = choice {
        let kept = Worker {
            picked: Some(event),
            started: own.started,
        };
        set_worker(workers, worker, kept);
    }
}

// makes an event, and gives what its worker is behind it
fn make_event<T: Table>(
    world: &mut World<T>,
    event: &Event,
    worker: Worker,
) -> Result<Worker, NoMemory>
    requires named { names_client (plan_of world.old.deployment) event.now ≡ true }
    requires moment { IsMoment event.now }
    ensures worker { IfOk result (λ w. w ≡ worker_made event.now
        (next_op (plan_of world.old.deployment) world.old.past event.now) worker) }
    ensures added { OnOk result (world.new ≡ goes_on (next_entry (plan_of world.old.deployment)
        world.old.past event.now) world.old) }
    ensures clock { OnOk result (clock_of world.new.past
        ≡ clock_shown event.now (clock_of world.old.past)) }
    ensures stopped { OnErr result (Stops world.old world.new) }
    ensures deployment { world.new.deployment ≡ world.old.deployment }
{
    let entry = world.apply_event(event)?;
    Ok(worker_made(*event, &entry.op, worker))
}
