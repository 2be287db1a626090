//! The printed form of a deployment.

ghost use Rattle.std.specs.Prelude.{◌≡◌, ◌++◌, IfOk, OnOk, true};
ghost use Rattle.std.specs.List.{flat_map};
ghost use Rattle.fk_print.specs.EventText.{event_words};
ghost use Rattle.fk_print.specs.Words.{client};
ghost use Rattle.fk_script.specs.PrintLaws.{IsMeant};
ghost use Rattle.fk_script.specs.Printed.{block_names, block_text, deployment_text, line_text, schedule_text, turn_words};
ghost use Rattle.fk_script.specs.Reading.{Means, deployment_of};

use crate::deployment::{Block, Deployment, Turn};
use crate::piece::{Piece, put_line};
use crate::print_command::put_command;
use fk_base::{Bytes, NoMemory};
use fk_print::Event;
use std::alloc::Global;

/// The one printed form of a deployment.
pub fn print_script(alloc: Global, deployment: &Deployment) -> Result<Bytes, NoMemory>
    ensures printed { IfOk result (λ text. text ≡ deployment_text deployment.now) }

    // Where some bytes mean the deployment, these do.
    ensures reads_back { IfOk result (λ text.
        IsMeant deployment.now → deployment_of text ≡ Means deployment.now) }
{
    let mut out = Bytes::new(alloc);
    let clients = deployment.clients.as_slice();
    put_line(&mut out, "lock", &[Piece::Number(deployment.config.lock)])?;
    put_line(&mut out, "beat", &[Piece::Number(deployment.config.beat)])?;
    put_clients(&mut out, clients)?;
    if deployment.scheduled {
        put_schedule(&mut out, clients, deployment.turns.as_slice())?;
    }
    Ok(out)
}

fn put_clients(out: &mut Bytes, clients: &[Block]) -> Result<(), NoMemory>
    ensures { OnOk result (out.new ≡ out.old ++ flat_map block_text clients.now) }
{
    'writing: for block in clients {
        put_block(out, block)?;
    }
    Ok(())
}

fn put_block(out: &mut Bytes, block: &Block) -> Result<(), NoMemory>
    ensures { OnOk result (out.new ≡ out.old ++ block_text block.now) }
{
    put_line(out, "client", &[Piece::Word(block.name.as_str())])?;
    'writing: for command in block.commands.as_slice() {
        put_command(out, command)?;
    }
    Ok(())
}

fn put_schedule(out: &mut Bytes, clients: &[Block], turns: &[Turn]) -> Result<(), NoMemory>
    ensures { OnOk result (out.new ≡ out.old
        ++ schedule_text (block_names clients.now) true turns.now) }
{
    put_line(out, "schedule", &[])?;
    'writing: for turn in turns {
        put_turn(out, clients, turn)?;
    }
    Ok(())
}

fn put_turn(out: &mut Bytes, clients: &[Block], turn: &Turn) -> Result<(), NoMemory>
    ensures { OnOk result (out.new ≡ out.old
        ++ line_text (turn_words (block_names clients.now) turn.now)) }
{
    match turn {
        Turn::One(event) => put_event(out, clients, event),
        Turn::Drain => put_line(out, "drain", &[]),
    }
}

fn put_event(out: &mut Bytes, clients: &[Block], event: &Event) -> Result<(), NoMemory>
    ensures { OnOk result (out.new ≡ out.old
        ++ line_text (event_words (block_names clients.now) event.now)) }
{
    use Piece::*;
    match event {
        Event::Client(session) => put_line(out, "client", &[Word(name(clients, *session))]),
        Event::Deliver(session) => put_line(out, "deliver", &[Word(name(clients, *session))]),
        Event::Leader => put_line(out, "deliver leader", &[]),
        Event::Watch => put_line(out, "deliver watch", &[]),
        Event::Beat(session) => put_line(out, "beat", &[Word(name(clients, *session))]),
        Event::Step(function) => put_line(out, "step", &[Number(*function)]),
        Event::Crash(function) => put_line(out, "crash", &[Number(*function)]),
        Event::Fail(function) => put_line(out, "fail", &[Number(*function)]),
        Event::FailClient(session) => {
            put_line(out, "fail client", &[Word(name(clients, *session))])
        }
        Event::Clock(moment) => put_line(out, "clock", &[Number(*moment)]),
    }
}

/// The name of the client of a session; empty for a session without one.
fn name(clients: &[Block], session: u32) -> &str
    ensures { result.now ≡ client (block_names clients.now) session }
{
    let place = session as usize;
    if 0 < place && place <= clients.len() {
        clients[place - 1].name.as_str()
    } else {
        ""
    }
}
