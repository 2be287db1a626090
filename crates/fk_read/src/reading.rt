ghost use Rattle.std.specs.Prelude.{◌≡◌, IfOk, OnOk, Some};
ghost use Rattle.std.specs.List.{AllByRecursion};
ghost use Rattle.fk_print.specs.WellFormed.{IsEntry, IsEvent, IsLine, IsOp};
ghost use Rattle.fk_read.specs.ReadHistory.{IsRead, closed, history_of, marked_line, nothing_read, read_line, with_event, with_line, with_op};
ghost use Rattle.fk_read.specs.Reads.{Reads};

use crate::event::read_event;
use crate::line::read_line;
use crate::op::read_op;
use crate::unread::Unread;
use crate::words::{Cut, is};
use fk_base::{Names, NoMemory};
use fk_print::{Entry, Event, History, Line, Lines, Op};
use std::alloc::Global;

/// What was read so far: whole entries, the one that public lines are added to, and an event whose
/// operation comes next.
#[derive(Drop)]
pub(crate) struct Reading {
    history: History,
    entry: Option<Entry>,
    event: Option<Event>,
}

/// Reads the lines of a history, each once.
pub(crate) fn read_history(alloc: Global, clients: &Names, text: &[u8]) -> Result<History, Unread>
    ensures reads { Reads result (history_of clients.now text.now) }
    ensures fits { IfOk result (AllByRecursion (IsEntry clients.now)) }
{
    let mut reading = Reading {
        history: History::new(alloc),
        entry: None,
        event: None,
    };
    let mut lines = Cut::new(alloc, b'\n', text);
    'reading: while let Some(line) = lines.next() {
        reading = read_text(alloc, clients, reading, line)?;
    }
    let Reading {
        mut history,
        entry,
        ..
    } = reading;
    close(&mut history, entry)?;
    Ok(history)
}

/// The entry that was open joins the others.
fn close(history: &mut History, entry: Option<Entry>) -> Result<(), NoMemory>
    ensures { OnOk result (history.new ≡ closed entry history.old) }
{
    match entry {
        Some(entry) => history.push(entry),
        None => Ok(()),
    }
}

/// Reads a line; an empty one says nothing.
fn read_text(
    alloc: Global,
    clients: &Names,
    reading: Reading,
    line: &[u8],
) -> Result<Reading, Unread>
    requires { IsRead clients.now reading }
    ensures reads { Reads result (read_line clients.now reading line.now) }
    ensures fits { IfOk result (IsRead clients.now) }
{
    if line.is_empty() {
        return Ok(reading);
    }
    let mut words = Cut::new(alloc, b' ', line);
    let mark = words.word()?;
    read_marked(alloc, clients, reading, mark, &mut words)
}

/// Reads a line behind its mark.
fn read_marked(
    alloc: Global,
    clients: &Names,
    reading: Reading,
    mark: &[u8],
    words: &mut Cut,
) -> Result<Reading, Unread>
    requires { IsRead clients.now reading }
    ensures reads { Reads result (marked_line clients.now reading mark.now words.old) }
    ensures fits { IfOk result (IsRead clients.now) }
{
    if is(mark, ">") {
        let event = read_event(clients, words)?;
        return with_event(clients, reading, event);
    }
    if is(mark, ".") {
        let op = read_op(clients, words)?;
        return with_op(alloc, clients, reading, op);
    }
    let line = read_line(clients, mark, words)?;
    with_line(clients, reading, line)
}

/// An event closes the entry before it.
fn with_event(clients: &Names, reading: Reading, event: Event) -> Result<Reading, Unread>
    requires { IsRead clients.now reading × IsEvent clients.now event }
    ensures reads { Reads result (Some (with_event event reading)) }
    ensures fits { IfOk result (IsRead clients.now) }
{
    let Reading {
        mut history,
        entry,
        ..
    } = reading;
    close(&mut history, entry)?;
    Ok(Reading {
        history,
        entry: None,
        event: Some(event),
    })
}

/// An operation opens the entry of its event.
fn with_op(alloc: Global, clients: &Names, reading: Reading, op: Op) -> Result<Reading, Unread>
    requires { IsRead clients.now reading × IsOp clients.now op }
    ensures reads { Reads result (with_op op reading) }
    ensures fits { IfOk result (IsRead clients.now) }
{
    let Reading { history, event, .. } = reading;
    let Some(event) = event else {
        return Err(Unread::Malformed);
    };
    let entry = Entry {
        event,
        op,
        lines: Lines::new(alloc),
    };
    Ok(Reading {
        history,
        entry: Some(entry),
        event: None,
    })
}

/// A public line joins its entry.
fn with_line(clients: &Names, reading: Reading, line: Line) -> Result<Reading, Unread>
    requires { IsRead clients.now reading × IsLine clients.now line }
    ensures reads { Reads result (with_line line reading) }
    ensures fits { IfOk result (IsRead clients.now) }
{
    let Reading {
        history,
        entry,
        event,
    } = reading;
    let Some(
        Entry {
            event: of,
            op,
            mut lines,
        },
    ) = entry
    else {
        return Err(Unread::Malformed);
    };
    lines.push(line)?;
    Ok(Reading {
        history,
        entry: Some(Entry {
            event: of,
            op,
            lines,
        }),
        event,
    })
}
