//! The world.

ghost use Rattle.std.specs.Prelude.{◌≡◌, ◌≢◌, [], ◌∷◌, List, length, not, true, false, IfOk, OnOk, OnErr};
ghost use Rattle.fk_agree_engine.specs.Playing.{IsMoment};
ghost use Rattle.fk_script.specs.PrintLaws.{IsMeant};
ghost use Rattle.fk_spec.specs.Next.{IsHistory, names_client, next_entry, next_op};
ghost use Rattle.fk_spec.specs.Function.{in_flight};
ghost use Rattle.fk_spec.specs.Schedule.{is_idle, next_of_drain};
ghost use Rattle.fk_spec.specs.Plan.{plan_of};
ghost use Rattle.fk_spec.specs.Start.{clock_of};
ghost use Rattle.fk_store.specs.Meaning.{new_table};
ghost use Rattle.fk_stand.specs.Posts.{post_after};
ghost use Rattle.fk_stand.specs.Stores.{store_after, watches_after};
ghost use Rattle.fk_stand.specs.Tables.{table_after};
ghost use Rattle.fk_queue.specs.Meaning.{blocks_in};
ghost use Rattle.fk_queue.specs.Posts.{post_of};
ghost use Rattle.fk_user.specs.Stored.{store_of};
ghost use Rattle.fk_watch.specs.Kept.{watches_of};
ghost use Rattle.fk_world.specs.Quiet.{is_quiet};
ghost use Rattle.fk_world.specs.Clocks.{clock_shown};
ghost use Rattle.fk_world.specs.World.{Adds, Comes, Stops};

use crate::making::clients_of;
use fk_base::{Config, NoMemory, Numbers};
use fk_engine::Engine;
use fk_print::{Entry, Event, History};
use fk_queue::Post;
use fk_script::Deployment;
use fk_store::Table;
use fk_user::UserStore;
use fk_watch::WatchTable;
use std::alloc::Global;
use std::marker::Model;

/// A deployment, and the engine that plays it.
#[derive(Drop)]
pub struct World<T: Table> {
    alloc: Global,
    deployment: Deployment,
    engine: Engine<T>,
}

impl<T: Table> Model for World<T> {
    ghost use Rattle.fk_engine.specs.Engine.{engine_of};
    ghost use Rattle.fk_world.specs.World.{IsSound, View};

    ghost Value = { View };

    ghost view = { λ w. record {
      deployment = w.deployment;
      past = w.engine.past;
      spent = w.engine.spent;
    } };

    ghost invariant = { λ w. IsSound w.deployment (engine_of T.meaning w.engine) };
}

impl<T: Table> World<T> {
    ghost use Rattle.std.specs.Borrow.{sem};
    ghost use Rattle.std.specs.Io.BufRead.{Rests};
    ghost use Rattle.fk_world.specs.contracts.world.World.{the_row};
    ghost use Rattle.fk_print.specs.declared.entry.Entry as values;

    /// A new world, of a deployment that some bytes mean and a new table.
    pub fn new(alloc: Global, deployment: Deployment, table: T) -> Result<World<T>, NoMemory>
        requires meant { IsMeant deployment }
        requires table { T.meaning table ≡ new_table (length (plan_of deployment).asks) }
        ensures deployment { IfOk result (λ w. w.deployment ≡ deployment) }
        ensures past { IfOk result (λ w. w.past ≡ []) }
        ensures spent { IfOk result (λ w. w.spent ≡ false) }
    {
        let clients = clients_of(alloc, deployment.clients.as_slice())?;
        let Config { lock, beat } = deployment.config;
        let engine = Engine::new(alloc, lock, beat, clients, table)?;
        Ok(World {
            alloc,
            deployment,
            engine,
        })
    }

    /// Makes the operation of an event, and adds and gives its entry. After `NoMemory` the past is
    /// as before, and the world is spent: it answers `NoMemory` from then on.
    pub fn apply_event(&mut self, event: &Event) -> Result<&Entry, NoMemory>
        requires named { names_client (plan_of self.old.deployment) event.now ≡ true }
        requires moment { IsMoment event.now }
        ensures entry { IfOk result (λ e. e.now ≡ next_entry (plan_of self.old.deployment)
            self.old.past event.now) }
        ensures* after { sem 𝓛 (Rests (the_row T.row T.Table) self.entry (λ new.
            Comes event.now result self.old new)) }
    {
        if self.play(event).is_err() {
            return Err(NoMemory);
        }
        Ok(self.last())
    }

    // the entry that was added last
    fn last(&self) -> &Entry
        requires { self.now.past ≢ [] }
        ensures { (e : values.Entry) (h : List values.Entry) → self.now.past ≡ e ∷ h
            → result.now ≡ e }
    {
        let entries = self.engine.history().as_slice();
        &entries[entries.len() - 1]
    }

    /// Makes the operation of an event, and adds its entry, as `apply_event` does.
    pub(crate) fn play(&mut self, event: &Event) -> Result<(), NoMemory>
        requires named { names_client (plan_of self.old.deployment) event.now ≡ true }
        requires moment { IsMoment event.now }
        ensures added { OnOk result (Adds (next_entry (plan_of self.old.deployment)
            self.old.past event.now) self.old self.new) }
        ensures clock { OnOk result (clock_of self.new.past
            ≡ clock_shown event.now (clock_of self.old.past)) }
        ensures stopped { OnErr result (Stops self.old self.new) }
        ensures deployment { self.new.deployment ≡ self.old.deployment }
    {
        self.engine.apply_event(event)
    }

    /// What a drain does next, once it began.
    pub fn next_of_drain(&self) -> Option<Event>
        requires { self.now.spent ≡ false }
        ensures { result ≡ next_of_drain (plan_of self.now.deployment) self.now.past }
    {
        self.engine.next_of_drain()
    }

    /// Whether no function is in flight, no message waits, and every client has answered all its
    /// commands and owes no ping.
    pub fn quiet(&self) -> bool
        requires { self.now.spent ≡ false }
        ensures { result ≡ is_quiet (plan_of self.now.deployment) self.now.past }
    {
        self.engine.quiet()
    }

    /// The numbers of the functions in flight, from the least on.
    pub fn in_flight(&self) -> &[u64]
        requires { self.now.spent ≡ false }
        ensures { result.now ≡ in_flight (plan_of self.now.deployment) self.now.past }
    {
        self.engine.in_flight()
    }

    /// Whether an event would make an operation.
    pub fn ready(&self, event: &Event) -> bool
        requires unspent { self.now.spent ≡ false }
        requires named { names_client (plan_of self.now.deployment) event.now ≡ true }
        ensures { result ≡ not (is_idle (next_op (plan_of self.now.deployment) self.now.past
            event.now)) }
    {
        self.engine.ready(event)
    }

    /// The numbers of the functions in flight. Where there is no memory for them the world is
    /// spent.
    pub(crate) fn flight(&mut self) -> Result<Numbers, NoMemory>
        requires { self.old.spent ≡ false }
        ensures numbers { IfOk result (λ ns. ns
            ≡ in_flight (plan_of self.old.deployment) self.old.past) }
        ensures same { OnOk result (self.new ≡ self.old) }
        ensures stopped { OnErr result (Stops self.old self.new) }
        ensures deployment { self.new.deployment ≡ self.old.deployment }
    {
        match Numbers::from_slice(self.alloc, self.engine.in_flight()) {
            Ok(numbers) => Ok(numbers),
            Err(NoMemory) => {
                self.engine.spend();
                Err(NoMemory)
            }
        }
    }

    /// What happened so far.
    pub fn history(&self) -> &History
        ensures past { result.now ≡ self.now.past }
        ensures lawful { IsHistory (plan_of self.now.deployment) result.now }
    {
        self.engine.history()
    }

    /// The deployment that is played.
    pub fn deployment(&self) -> &Deployment
        ensures same { result.now ≡ self.now.deployment }
        ensures meant { IsMeant result.now }
    {
        &self.deployment
    }

    /// Whether there was no memory for an event.
    pub fn spent(&self) -> bool
        ensures { result ≡ self.now.spent }
    {
        self.engine.spent()
    }

    /// What the clock shows.
    pub fn clock(&self) -> u64
        ensures { self.now.spent ≡ false → result ≡ clock_of self.now.past }
    {
        self.engine.clock()
    }

    /// The conditional table.
    pub fn table(&self) -> &T
        ensures { self.now.spent ≡ false → T.meaning result.now ≡ table_after
            (plan_of self.now.deployment) self.now.past (T.meaning result.now).faults }
    {
        self.engine.table()
    }

    /// The queues.
    pub fn post(&self) -> &Post
        ensures { self.now.spent ≡ false → post_of result.now ≡ post_after
            (plan_of self.now.deployment) self.now.past (post_of result.now).faults }
    {
        self.engine.post()
    }

    /// How many blocks of 256 bytes the messages take that wait in the queues.
    pub fn blocks(&self) -> usize
        ensures post { self.now.spent ≡ false → result ≡ blocks_in (post_after
            (plan_of self.now.deployment) self.now.past 0) }
        ensures quiet { self.now.spent ≡ false
            → is_quiet (plan_of self.now.deployment) self.now.past ≡ true → result ≡ 0 }
    {
        self.post().used()
    }

    /// The user storage.
    pub fn user(&self) -> &UserStore
        ensures { self.now.spent ≡ false → store_of result.now ≡ store_after
            (plan_of self.now.deployment) self.now.past (store_of result.now).faults }
    {
        self.engine.user()
    }

    /// The table of watches.
    pub fn watches(&self) -> &WatchTable
        ensures { self.now.spent ≡ false → watches_of result.now ≡ watches_after
            (plan_of self.now.deployment) self.now.past (watches_of result.now).faults }
    {
        self.engine.watches()
    }
}
