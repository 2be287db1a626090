//! What a drain does next, and which events would do something.

ghost use Rattle.std.specs.Prelude.{◌≡◌, ◌+◌, ◌<◌, ◌≤◌, ◌^◌, ℕ, List, length, map};
ghost use Rattle.fk_client.specs.Standing.{client_of};
ghost use Rattle.fk_print.specs.declared.event.Event.TheVariants as event;
ghost use Rattle.fk_queue.specs.Posts.{post_of};
ghost use Rattle.fk_queue.specs.declared.lane.Lane.TheVariants as lane;
ghost use Rattle.fk_spec.specs.Schedule.{lead_where, step_of_first, tell_where};
ghost use Rattle.fk_engine.specs.Drain.{are_done, deliver_first, is_quiet, is_ready, next_delivery};
ghost use Rattle.fk_engine.specs.Drain.{next_of_clients, next_of_drain, turn_first};
ghost use Rattle.fk_engine.specs.DrainFit.{ArePosted, FitsDrain, FitsReady};
ghost use Rattle.fk_engine.specs.Events.{head_in};
ghost use Rattle.fk_engine.specs.Flights.{AreInFlight};
ghost use Rattle.fk_engine.specs.Parts.{parts_of};

use crate::parts::Parts;
use crate::turning::place_of;
use fk_client::Client;
use fk_print::Event;
use fk_queue::{Lane, Post};
use fk_store::Table;

// a delivery to the first session from this one on whose lane isn't empty
fn deliver_first(clients: &[Client], session: u32, post: &Post) -> Option<Event>
    requires first { 1 ≤ session }
    requires sessions { session + length clients.now ≤ (post_of post.now).sessions + 1 }
    requires few { session + length clients.now < 2 ^ 32 }
    ensures { result ≡ deliver_first (map client_of clients.now) session (post_of post.now) }
{
    match clients {
        [] => None,
        [_, rest @ ..] => {
            if post.head(Lane::Session(session)).is_some() {
                Some(Event::Deliver(session))
            } else {
                deliver_first(rest, session + 1, post)
            }
        }
    }
}

// a turn of the first of these clients that isn't idle; their sessions begin with this one
fn turn_first(clients: &[Client], session: u32, post: &Post) -> Option<Event>
    requires few { session + length clients.now < 2 ^ 32 }
    requires posted { ArePosted (post_of post.now) (map client_of clients.now) }
    ensures { result ≡ turn_first (map client_of clients.now) session (post_of post.now) }
{
    match clients {
        [] => None,
        [client, rest @ ..] => {
            if client.idle(post) {
                turn_first(rest, session + 1, post)
            } else {
                Some(Event::Client(session))
            }
        }
    }
}

// whether each of these clients has answered all its commands and owes no ping
fn are_done(clients: &[Client]) -> bool
    ensures { result ≡ are_done (map client_of clients.now) }
{
    match clients {
        [] => true,
        [client, rest @ ..] => client.finished() && !client.owes() && are_done(rest),
    }
}

impl<T: Table> Parts<T> {
    // a step of the first function in flight
    fn next_step(&self) -> Option<Event>
        ensures { (ns : List ℕ) → AreInFlight (parts_of T.meaning self.now).functions ns
            → result ≡ step_of_first ns }
    {
        match self.functions.first() {
            None => None,
            Some(number) => Some(Event::Step(number)),
        }
    }

    // a delivery to a watch function
    fn next_watch(&self) -> Option<Event>
        ensures { result ≡ tell_where (head_in (parts_of T.meaning self.now) lane.Watch) }
    {
        match self.services.post.head(Lane::Watch) {
            None => None,
            Some(_) => Some(Event::Watch),
        }
    }

    // a delivery to the leader
    fn next_lead(&self) -> Option<Event>
        ensures { result ≡ lead_where (head_in (parts_of T.meaning self.now) lane.Leader) }
    {
        match self.services.post.head(Lane::Leader) {
            None => None,
            Some(_) => Some(Event::Leader),
        }
    }

    // a delivery to a follower, or a turn of a client
    fn next_of_clients(&self) -> Option<Event>
        requires { FitsDrain (parts_of T.meaning self.now) }
        ensures { result ≡ next_of_clients (parts_of T.meaning self.now) }
    {
        let clients = self.clients.as_slice();
        match deliver_first(clients, 1, &self.services.post) {
            Some(event) => Some(event),
            None => turn_first(clients, 1, &self.services.post),
        }
    }

    // an event that needs no step
    fn next_delivery(&self) -> Option<Event>
        requires { FitsDrain (parts_of T.meaning self.now) }
        ensures { result ≡ next_delivery (parts_of T.meaning self.now) }
    {
        if let Some(event) = self.next_watch() {
            return Some(event);
        }
        match self.next_lead() {
            Some(event) => Some(event),
            None => self.next_of_clients(),
        }
    }

    /// What a drain does next, once it began.
    pub(crate) fn next_of_drain(&self) -> Option<Event>
        requires { FitsDrain (parts_of T.meaning self.now) }
        ensures { (ns : List ℕ) → AreInFlight (parts_of T.meaning self.now).functions ns
            → result ≡ next_of_drain ns (parts_of T.meaning self.now) }
    {
        match self.next_step() {
            Some(event) => Some(event),
            None => self.next_delivery(),
        }
    }

    // whether a client has something to do
    fn is_busy(&self, session: u32) -> bool
        requires { FitsReady (parts_of T.meaning self.now) (event.Client session) }
        ensures { result ≡ is_ready (parts_of T.meaning self.now) (event.Client session) }
    {
        match place_of(self.clients.as_slice(), session) {
            None => false,
            Some(place) => !self.clients[place].idle(&self.services.post),
        }
    }

    /// Whether an event would make an operation.
    pub(crate) fn ready(&self, event: &Event) -> bool
        requires { FitsReady (parts_of T.meaning self.now) event.now }
        ensures { result ≡ is_ready (parts_of T.meaning self.now) event.now }
    {
        match *event {
            Event::Client(session) => self.is_busy(session),
            Event::Deliver(session) => self.services.post.head(Lane::Session(session)).is_some(),
            Event::Leader => self.services.post.head(Lane::Leader).is_some(),
            Event::Watch => self.services.post.head(Lane::Watch).is_some(),
            Event::Beat(_) => true,
            Event::Step(function) => self.functions.runs(function),
            Event::Crash(function) => self.functions.runs(function),
            Event::Fail(function) => self.functions.runs(function),
            Event::FailClient(session) => self.is_busy(session),
            Event::Clock(_) => true,
        }
    }

    /// Whether no function is in flight, no message waits, and every client is done.
    pub(crate) fn quiet(&self) -> bool
        ensures { (ns : List ℕ) → AreInFlight (parts_of T.meaning self.now).functions ns
            → result ≡ is_quiet ns (parts_of T.meaning self.now) }
    {
        self.functions.first().is_none()
            && self.services.post.waiting() == 0
            && are_done(self.clients.as_slice())
    }
}
