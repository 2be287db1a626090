ghost use Rattle.std.specs.Prelude.{IfOk};
ghost use Rattle.fk_print.specs.WellFormed.{IsEvent};
ghost use Rattle.fk_read.specs.ReadEvent.{deliver_of, event_of, fail_of};
ghost use Rattle.fk_read.specs.Reads.{Reads};

use crate::piece::{client, number};
use crate::unread::Unread;
use crate::words::{Cut, is};
use fk_base::Names;
use fk_print::Event;

/// Reads an event.
pub(crate) fn read_event(clients: &Names, words: &mut Cut) -> Result<Event, Unread>
    ensures reads { Reads result (event_of clients.now words.old) }
    ensures fits { IfOk result (IsEvent clients.now) }
{
    let word = words.word()?;
    if is(word, "client") {
        let session = words.client(clients)?;
        return Ok(Event::Client(session));
    }
    if is(word, "deliver") {
        return read_deliver(clients, words);
    }
    if is(word, "beat") {
        let session = words.client(clients)?;
        return Ok(Event::Beat(session));
    }
    if is(word, "step") {
        let function = words.number()?;
        return Ok(Event::Step(function));
    }
    if is(word, "crash") {
        let function = words.number()?;
        return Ok(Event::Crash(function));
    }
    if is(word, "fail") {
        return read_fail(clients, words);
    }
    let moment = words.number()?;
    Ok(Event::Clock(moment))
}

fn read_deliver(clients: &Names, words: &mut Cut) -> Result<Event, Unread>
    ensures reads { Reads result (deliver_of clients.now words.old) }
    ensures fits { IfOk result (IsEvent clients.now) }
{
    let word = words.word()?;
    if is(word, "leader") {
        return Ok(Event::Leader);
    }
    if is(word, "watch") {
        return Ok(Event::Watch);
    }
    let Some(session) = client(clients, word) else {
        return Err(Unread::Malformed);
    };
    Ok(Event::Deliver(session))
}

fn read_fail(clients: &Names, words: &mut Cut) -> Result<Event, Unread>
    ensures reads { Reads result (fail_of clients.now words.old) }
    ensures fits { IfOk result (IsEvent clients.now) }
{
    let word = words.word()?;
    if let Some(function) = number(word) {
        return Ok(Event::Fail(function));
    }
    let session = words.client(clients)?;
    Ok(Event::FailClient(session))
}
