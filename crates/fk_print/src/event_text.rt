ghost use Rattle.std.specs.Prelude.{◌≡◌, ◌++◌, OnOk, string_bytes};
ghost use Rattle.fk_print.specs.EventText.{event_text};

use crate::event::Event;
use crate::piece::{Piece, put_line};
use fk_base::{Names, NoMemory};

/// Writes the line of an event.
pub(crate) fn put_event(out: &mut String, clients: &Names, event: &Event) -> Result<(), NoMemory>
    ensures { OnOk result (string_bytes out.new ≡ string_bytes out.old
        ++ event_text clients.now event.now) }
{
    use Piece::*;
    match event {
        Event::Client(session) => put_line(out, clients, ">", &[Word("client"), Client(*session)]),
        Event::Deliver(session) => put_line(
            out,
            clients,
            ">",
            &[Word("deliver"), Client(*session)],
        ),
        Event::Leader => put_line(out, clients, ">", &[Word("deliver leader")]),
        Event::Watch => put_line(out, clients, ">", &[Word("deliver watch")]),
        Event::Beat(session) => put_line(out, clients, ">", &[Word("beat"), Client(*session)]),
        Event::Step(function) => put_line(out, clients, ">", &[Word("step"), Number(*function)]),
        Event::Crash(function) => put_line(out, clients, ">", &[Word("crash"), Number(*function)]),
        Event::Fail(function) => put_line(out, clients, ">", &[Word("fail"), Number(*function)]),
        Event::FailClient(session) => put_line(
            out,
            clients,
            ">",
            &[Word("fail client"), Client(*session)],
        ),
        Event::Clock(moment) => put_line(out, clients, ">", &[Word("clock"), Number(*moment)]),
    }
}
