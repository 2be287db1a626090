//! The engine.

ghost use Rattle.std.specs.Prelude.{◌≡◌, ◌<◌, ◌^◌, ℕ, List, length, map, true, false, IfOk, OnErr, OnOk};
ghost use Rattle.fk_client.specs.Standing.{client_of};
ghost use Rattle.fk_queue.specs.Posts.{post_of};
ghost use Rattle.fk_user.specs.Stored.{store_of};
ghost use Rattle.fk_watch.specs.Kept.{watches_of};
ghost use Rattle.fk_engine.specs.Drain.{is_quiet, is_ready, next_of_drain};
ghost use Rattle.fk_engine.specs.DrainFit.{FitsDrain, FitsReady};
ghost use Rattle.fk_engine.specs.Engine.{Plays, engine_of, new_engine};
ghost use Rattle.fk_engine.specs.Fit.{FitsEvent};
ghost use Rattle.fk_engine.specs.Flights.{AreInFlight};
ghost use Rattle.fk_engine.specs.Playing.{IsGiven, SendsReadable};

use crate::functions::Functions;
use crate::parts::Parts;
use crate::services::Services;
use crate::times::Times;
use fk_base::NoMemory;
use fk_client::Client;
use fk_print::{Entry, Event, History};
use fk_queue::Post;
use fk_store::Table;
use fk_user::UserStore;
use fk_watch::WatchTable;
use fk_wire::Reader;
use std::alloc::Global;

/// From so many entries on there is no memory for a further one.
const MOST_ENTRIES: usize = 4_611_686_018_427_387_904;

/// The past, and everything that makes it go on.
#[derive(Drop)]
pub struct Engine<T: Table> {
    past: History,
    parts: Parts<T>,
    /// There was no memory for an event. Then the parts may be anything.
    spent: bool,
}

impl<T: Table> Engine<T> {
    /// A new engine for these clients, whose sessions are their places from 1, over a table.
    pub fn new(
        alloc: Global,
        lock: u64,
        beat: u64,
        clients: Vec<Client>,
        table: T,
    ) -> Result<Engine<T>, NoMemory>
        requires { length clients.items < 2 ^ 32 }
        ensures { IfOk result (λ e. engine_of T.meaning e
            ≡ new_engine lock beat (map client_of clients.items) (T.meaning table)) }
    {
        let sessions = clients.len() as u32;
        Ok(Engine {
            past: History::new(alloc),
            parts: Parts {
                alloc,
                times: Times {
                    clock: 0,
                    lock,
                    beat,
                },
                functions: Functions::new(alloc),
                clients,
                services: Services {
                    table,
                    post: Post::new(alloc, sessions)?,
                    watches: WatchTable::new(alloc)?,
                    user: UserStore::new(alloc)?,
                },
                reader: Reader::new(alloc),
            },
            spent: false,
        })
    }

    /// Makes the operation of an event, and adds its entry. After `NoMemory` the past is as before,
    /// and the engine is spent: it answers `NoMemory` from then on.
    pub fn apply_event(&mut self, event: &Event) -> Result<(), NoMemory>
        requires { (engine_of T.meaning self.old).spent ≡ false
            → length (engine_of T.meaning self.old).past < 2 ^ 62
            → FitsEvent (engine_of T.meaning self.old).parts event.now }
        ensures played { OnOk result (Plays event.now (engine_of T.meaning self.old)
            (engine_of T.meaning self.new)) }
        ensures given { OnOk result (IsGiven (engine_of T.meaning self.old).parts event.now) }
        ensures sent { OnOk result (SendsReadable (engine_of T.meaning self.old).parts event.now) }
        ensures room { OnOk result (length (engine_of T.meaning self.old).past < 2 ^ 62) }
        ensures unspent { OnOk result ((engine_of T.meaning self.old).spent ≡ false) }
        ensures past { OnErr result ((engine_of T.meaning self.new).past
            ≡ (engine_of T.meaning self.old).past) }
        ensures spent { OnErr result ((engine_of T.meaning self.new).spent ≡ true) }
    {
        if self.spent {
            return Err(NoMemory);
        }
        self.spent = true;
        if self.past.as_slice().len() >= MOST_ENTRIES {
            return Err(NoMemory);
        }
        let (op, lines) = self.parts.play(event)?;
        self.past.push(Entry {
            event: *event,
            op,
            lines,
        })?;
        self.spent = false;
        Ok(())
    }

    /// From now on there is no memory for an event.
    pub fn spend(&mut self)
        ensures past { (engine_of T.meaning self.new).past ≡ (engine_of T.meaning self.old).past }
        ensures spent { (engine_of T.meaning self.new).spent ≡ true }
    {
        self.spent = true;
    }

    /// What a drain does next, once it began.
    pub fn next_of_drain(&self) -> Option<Event>
        requires { FitsDrain (engine_of T.meaning self.now).parts }
        ensures { (ns : List ℕ) → AreInFlight (engine_of T.meaning self.now).parts.functions ns
            → result ≡ next_of_drain ns (engine_of T.meaning self.now).parts }
    {
        self.parts.next_of_drain()
    }

    /// Whether no function is in flight, no message waits, and every client has answered all its
    /// commands and owes no ping.
    pub fn quiet(&self) -> bool
        ensures { (ns : List ℕ) → AreInFlight (engine_of T.meaning self.now).parts.functions ns
            → result ≡ is_quiet ns (engine_of T.meaning self.now).parts }
    {
        self.parts.quiet()
    }

    /// The numbers of the functions in flight, from the least on.
    pub fn in_flight(&self) -> &[u64]
        ensures { AreInFlight (engine_of T.meaning self.now).parts.functions result.now }
    {
        self.parts.functions.in_flight()
    }

    /// Whether an event would make an operation.
    pub fn ready(&self, event: &Event) -> bool
        requires { FitsReady (engine_of T.meaning self.now).parts event.now }
        ensures { result ≡ is_ready (engine_of T.meaning self.now).parts event.now }
    {
        self.parts.ready(event)
    }

    /// What happened so far.
    pub fn history(&self) -> &History
        ensures { result.now ≡ (engine_of T.meaning self.now).past }
    {
        &self.past
    }

    /// Whether there was no memory for an event.
    pub fn spent(&self) -> bool
        ensures { result ≡ (engine_of T.meaning self.now).spent }
    {
        self.spent
    }

    /// What the clock shows.
    pub fn clock(&self) -> u64
        ensures { result ≡ (engine_of T.meaning self.now).parts.times.clock }
    {
        self.parts.times.clock
    }

    /// The conditional table.
    pub fn table(&self) -> &T
        ensures { T.meaning result.now ≡ (engine_of T.meaning self.now).parts.services.table }
    {
        &self.parts.services.table
    }

    /// The queues.
    pub fn post(&self) -> &Post
        ensures { post_of result.now ≡ (engine_of T.meaning self.now).parts.services.post }
    {
        &self.parts.services.post
    }

    /// The user storage.
    pub fn user(&self) -> &UserStore
        ensures { store_of result.now ≡ (engine_of T.meaning self.now).parts.services.user }
    {
        &self.parts.services.user
    }

    /// The table of watches.
    pub fn watches(&self) -> &WatchTable
        ensures { watches_of result.now ≡ (engine_of T.meaning self.now).parts.services.watches }
    {
        &self.parts.services.watches
    }
}
