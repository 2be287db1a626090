//! A client takes its turn, or its operation fails.

ghost use Rattle.std.specs.Prelude.{◌≡◌, ◌+◌, ◌<◌, length, map, IfNone, IfSome, IfOk, None, OnOk};
ghost use Rattle.fk_client.specs.Standing.{client_of};
ghost use Rattle.fk_print.specs.declared.event.Event.TheVariants as event;
ghost use Rattle.fk_spec.specs.Plan.{nth};
ghost use Rattle.fk_engine.specs.Fit.{FitsEvent, FitsTurn, FitsTurnOf};
ghost use Rattle.fk_engine.specs.Parts.{parts_of};
ghost use Rattle.fk_engine.specs.Playing.{AreLinesOf, IsOpOf, Leads};
ghost use Rattle.fk_engine.specs.Serving.{services_of};
ghost use Rattle.fk_engine.specs.Turning.{TakeTurn, TakesTurn};

use crate::parts::Parts;
use crate::services::Services;
use fk_base::NoMemory;
use fk_client::Client;
use fk_print::{Lines, Op};
use fk_store::Table;
use std::alloc::Global;

/// Where the client of a session stands.
pub fn place_of(clients: &[Client], session: u32) -> Option<usize>
    ensures within { IfSome result (λ i. i < length clients.now) }
    ensures place { IfSome result (λ i. session ≡ i + 1) }
    ensures none { IfNone result (nth (map client_of clients.now) session ≡ None) }
{
    if session == 0 {
        return None;
    }
    let place = session as usize - 1;
    if place < clients.len() {
        Some(place)
    } else {
        None
    }
}

// a client takes its turn on these services
fn take<T: Table>(
    alloc: Global,
    client: &mut Client,
    services: &mut Services<T>,
) -> Result<(Op, Lines), NoMemory>
    requires { FitsTurn (services_of T.meaning services.old) (client_of client.old) }
    ensures { IfOk result (λ x. TakesTurn
        (services_of T.meaning services.old) (services_of T.meaning services.new)
        (client_of client.old) (client_of client.new) x.0 x.1) }
{
    if client.idle(&services.post) {
        return Ok((Op::Idle, Lines::new(alloc)));
    }
    client.step(
        &mut services.table,
        &mut services.post,
        &mut services.watches,
        &mut services.user,
    )
}

// the client of a session takes its turn on these services
fn take_turn<T: Table>(
    alloc: Global,
    clients: &mut Vec<Client>,
    session: u32,
    services: &mut Services<T>,
) -> Result<(Op, Lines), NoMemory>
    requires { FitsTurnOf (services_of T.meaning services.old)
        (nth (map client_of clients.old.items) session) }
    ensures { IfOk result (λ x. TakeTurn
        (services_of T.meaning services.old) (services_of T.meaning services.new)
        session (nth (map client_of clients.old.items) session)
        (map client_of clients.old.items) (map client_of clients.new.items) x.0 x.1) }
{
    match place_of(clients.as_slice(), session) {
        None => Ok((Op::Idle, Lines::new(alloc))),
        Some(place) => take(alloc, &mut clients[place], services),
    }
}

impl<T: Table> Parts<T> {
    /// A client takes its next turn.
    pub(crate) fn turn(&mut self, session: u32) -> Result<(Op, Lines), NoMemory>
        requires { FitsEvent (parts_of T.meaning self.old) (event.Client session) }
        ensures op { IfOk result (λ x. IsOpOf (parts_of T.meaning self.old)
            (event.Client session) x.0) }
        ensures lines { IfOk result (λ x. AreLinesOf (parts_of T.meaning self.old)
            (event.Client session) x.1) }
        ensures after { OnOk result (Leads (parts_of T.meaning self.old) (event.Client session)
            (parts_of T.meaning self.new)) }
    {
        take_turn(self.alloc, &mut self.clients, session, &mut self.services)
    }

    /// A client's next operation fails.
    pub(crate) fn fail_turn(&mut self, session: u32) -> Result<(Op, Lines), NoMemory>
        requires { FitsEvent (parts_of T.meaning self.old) (event.FailClient session) }
        ensures op { IfOk result (λ x. IsOpOf (parts_of T.meaning self.old)
            (event.FailClient session) x.0) }
        ensures lines { IfOk result (λ x. AreLinesOf (parts_of T.meaning self.old)
            (event.FailClient session) x.1) }
        ensures after { OnOk result (Leads (parts_of T.meaning self.old) (event.FailClient session)
            (parts_of T.meaning self.new)) }
    {
        self.services.arm();
        let made = take_turn(self.alloc, &mut self.clients, session, &mut self.services)?;
        self.services.calm();
        Ok(made)
    }
}
