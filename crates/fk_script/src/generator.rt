//! Deployments made from a number.

ghost use Rattle.std.specs.Prelude.{◌≡◌, ◌*◌, ◌/◌, ◌^◌, ◌≤◌, ◌<◌, IfOk, OnOk, true};
ghost use Rattle.std.specs.Fmt.{decimal};
ghost use Rattle.fk_script.specs.Generate.{generated, generated_block, generated_command, generated_turn, generated_turns, next_state, node_path, state_after};
ghost use Rattle.fk_script.specs.PrintLaws.{IsMeant};

use crate::command::Command;
use crate::deployment::{Block, Deployment, Turn};
use crate::lists::{Clients, Commands, Turns};
use fk_base::{Bytes, Config, NoMemory, Text};
use fk_print::Event;
use itoa::Buffer;
use std::alloc::Global;

/// The modulus of the states.
const MODULUS: u64 = 2147483648;

/// The numbers that are drawn, one after the other.
#[derive(Drop)]
struct Draws {
    state: u64,
}

impl Draws {
    #[tactic(auto, using(crate::proofs::Draws::reduced))]
    fn draw(&mut self) -> u64
        ensures state { self.new.state ≡ next_state self.old.state }
        ensures drawn { result ≡ self.new.state / 65536 }
        ensures small { result < 2 ^ 15 }
    {
        self.state = ((self.state % MODULUS) * 1103515245 + 12345) % MODULUS;
        self.state / 65536
    }
}

/// The deployment of a number: four clients with `size` commands each, and a schedule of 20 times
/// as many turns.
#[tactic(auto, using(crate::proofs::Draws::second_client, crate::proofs::Draws::third_client, crate::proofs::Draws::behind_clients))]
pub fn generate(alloc: Global, number: u64, size: u64) -> Result<Deployment, NoMemory>
    requires least { 1 ≤ size }
    requires most { size ≤ 500 }
    ensures generated { IfOk result (λ d. d ≡ generated number size) }

    // A file could say it.
    ensures meant { IfOk result IsMeant }
{
    let mut draws = Draws { state: number };
    let mut clients = Clients::new(alloc);
    clients.push(block(alloc, &mut draws, "c1", size)?)?;
    clients.push(block(alloc, &mut draws, "c2", size)?)?;
    clients.push(block(alloc, &mut draws, "c3", size)?)?;
    clients.push(block(alloc, &mut draws, "c4", size)?)?;
    Ok(Deployment {
        config: Config { lock: 10, beat: 30 },
        clients,
        turns: turns(alloc, &mut draws, 20 * size)?,
        scheduled: true,
    })
}

#[tactic(auto, using(crate::proofs::Draws::two_more, crate::proofs::Draws::command_more))]
fn block(alloc: Global, draws: &mut Draws, name: &str, size: u64) -> Result<Block, NoMemory>
    requires { size ≤ 500 }
    ensures block { IfOk result (λ b. b ≡ generated_block name.now draws.old.state size) }
    ensures state { OnOk result (draws.new.state ≡ state_after draws.old.state (2 * size)) }
{
    let mut commands = Commands::new(alloc);
    'commanding: for before in 0..size {
        let kind = draws.draw();
        let node = draws.draw();
        commands.push(command(alloc, before + 1, kind, node)?)?;
    }
    Ok(Block {
        name: Text::from_str(alloc, name)?,
        commands,
    })
}

/// A client's command of this number, by what was drawn for its kind and for its node.
fn command(alloc: Global, number: u64, kind: u64, node: u64) -> Result<Command, NoMemory>
    ensures { IfOk result (λ c. c ≡ generated_command number kind node) }
{
    match kind % 8 {
        0 | 1 => create(alloc, node_path(alloc, node, "")?, number, false, false),
        2 => create(alloc, node_path(alloc, node, "/q")?, number, true, false),
        3 => Ok(Command::Set {
            path: node_path(alloc, node, "")?,
            bytes: digits(alloc, number)?,
            version: -1,
            wait: true,
        }),
        4 => Ok(Command::Get {
            path: node_path(alloc, node, "")?,
            watch: false,
        }),
        5 => Ok(Command::Ls {
            path: Text::from_str(alloc, "/")?,
            watch: true,
        }),
        6 => Ok(Command::Delete {
            path: node_path(alloc, node, "")?,
            version: -1,
            wait: true,
        }),
        _ => create(alloc, node_path(alloc, node, "/e")?, number, false, true),
    }
}

fn create(alloc: Global, path: Text, number: u64, seq: bool, eph: bool) -> Result<Command, NoMemory>
    ensures { IfOk result (λ c. c ≡ Command.Create path (decimal number) seq eph true) }
{
    Ok(Command::Create {
        path,
        bytes: digits(alloc, number)?,
        seq,
        eph,
        wait: true,
    })
}

/// The path of one of eight nodes, or of a node below it.
fn node_path(alloc: Global, node: u64, end: &str) -> Result<Text, NoMemory>
    ensures { IfOk result (λ t. t ≡ node_path node end.now) }
{
    let mut path = Text::from_str(alloc, "/p")?;
    path.push_str(Buffer::new().format(node % 8))?;
    path.push_str(end)?;
    Ok(path)
}

/// The number in decimal.
fn digits(alloc: Global, number: u64) -> Result<Bytes, NoMemory>
    ensures { IfOk result (λ b. b ≡ decimal number) }
{
    Bytes::from_slice(alloc, Buffer::new().format(number).as_bytes())
}

#[tactic(auto, using(crate::proofs::Draws::two_more, crate::proofs::Draws::turn_more))]
fn turns(alloc: Global, draws: &mut Draws, count: u64) -> Result<Turns, NoMemory>
    requires { count ≤ 10000 }
    ensures { IfOk result (λ t. t ≡ generated_turns draws.old.state count) }
{
    let mut turns = Turns::new(alloc);
    'turning: for before in 0..count {
        let kind = draws.draw();
        let about = draws.draw();
        turns.push(turn(before + 1, kind, about))?;
    }
    Ok(turns)
}

/// The turn of this number, by what was drawn for its kind and for what it is about.
fn turn(number: u64, kind: u64, about: u64) -> Turn
    requires { 0 < number }
    ensures { result ≡ generated_turn number kind about }
{
    let session = 1 + (about % 4) as u32;
    Turn::One(match kind % 16 {
        0..=3 => Event::Client(session),
        4..=6 => Event::Deliver(session),
        7 | 8 => Event::Leader,
        9 => Event::Watch,
        10..=13 => Event::Step(1 + about % number),
        14 => Event::Beat(session),
        _ => Event::Clock(number),
    })
}
