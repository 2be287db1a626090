//! A client looks before it prints.

ghost use Rattle.std.specs.Prelude.{◌≡◌, [], true, Option, Some, IfOk};
ghost use Rattle.fk_queue.specs.Meaning as post;
ghost use Rattle.fk_user.specs.Meaning.{called};
ghost use Rattle.fk_user.specs.Stored.{store_of};
ghost use Rattle.fk_wire.specs.declared.message.Tell.{Tell};
ghost use Rattle.fk_watch.specs.Meaning.{Watches};
ghost use Rattle.fk_spec.specs.Plan.{nth, want_of};
ghost use Rattle.fk_spec.specs.Client as rules;
ghost use Rattle.fk_spec.specs.Client.{answered, close_if, is_close, look_op, looked, looked_for, registers, sets_watch, target_of, target_sent};
ghost use Rattle.fk_spec.specs.Replies.{first_line, looked_lines, shown_read};
ghost use Rattle.fk_client.specs.Acting.{GoesOn, KeepsPost, KeepsTable, KeepsWatches, Prints};
ghost use Rattle.fk_client.specs.Answering.{looked_at};
ghost use Rattle.fk_client.specs.Known.{by_outcome, reading_as, target_as, target_in};
ghost use Rattle.fk_client.specs.Meaning.{asks_read, holding, is_read, next_ask};
ghost use Rattle.fk_client.specs.Operation.{failed_if};
ghost use Rattle.fk_client.specs.Services.{user_by};
ghost use Rattle.fk_client.specs.Shown.{next_lines, read_lines, seeing, wording};
ghost use Rattle.fk_client.specs.Sighting.{sight_by};
ghost use Rattle.fk_client.specs.Standing.{client_of};

use crate::client::Client;
use crate::lists::{command_at, first_held};
use crate::printing::print;
use crate::reading::Reading;
use crate::replying::{line_for, reply_line};
use crate::sent_list::SentList;
use crate::want::is_close;
use fk_base::{Code, NoMemory};
use fk_print::{Line, Lines, Op, Shown};
use fk_script::Command;
use fk_tree::Node;
use fk_user::{UserLook, UserStore};
use std::alloc::Global;

/// What a client looks for: a command that is to be printed, and its number of the tree.
#[derive(Clone, Copy)]
pub struct Target {
    pub command: u32,
    pub number: u64,
}

// what a look shows
#[derive(Clone, Copy)]
enum Looked {
    Failed,
    Behind(u64),
    Held { mark: u64, watch: u64 },
    Free(u64),
}

// looks at the mark and the epoch
fn look_at(user: &mut UserStore, held: &[u64], number: u64) -> Looked
    ensures looked { result ≡ looked_at (store_of user.old) held.now number }
    ensures user { store_of user.new ≡ called (store_of user.old) }
{
    match user.look() {
        UserLook::Failed => Looked::Failed,
        UserLook::Shown { mark, epoch } => {
            if mark < number {
                return Looked::Behind(mark);
            }
            match first_held(epoch.as_slice(), held) {
                None => Looked::Free(mark),
                Some(watch) => Looked::Held { mark, watch },
            }
        }
    }
}

// the first reply, where it needs a look
#[tactic(auto, using(crate::proofs::Waiting::first_target))]
fn target_sent(sent: &SentList) -> Option<Target>
    ensures { target_in result ≡ target_sent by_outcome sent.now }
{
    match sent.first() {
        None => None,
        Some(first) => first.outcome.number().map(|number| Target {
            command: first.command,
            number,
        }),
    }
}

/// What a read shows at a number.
#[tactic(auto, using(crate::proofs::Finding::shown_is))]
fn shown_found(at: u64, found: Option<Node>, command: &Command) -> Shown
    requires { is_read (want_of command.now) ≡ true }
    ensures { result ≡ shown_read at found (want_of command.now) }
{
    let Some(node) = found else {
        return Shown::Refused {
            code: Code::NoNode,
            at,
            place: 0,
        };
    };
    let stat = node.stat();
    match command {
        Command::Get { .. } => Shown::Got {
            at,
            bytes: node.bytes,
            stat,
        },
        Command::Stat { .. } => Shown::Stated { at, stat },
        Command::Ls { .. } => Shown::Listed {
            at,
            names: node.names,
        },
        Command::Create { .. }
        | Command::Set { .. }
        | Command::Delete { .. }
        | Command::Close
        | Command::Multi { .. } => Shown::Plain(Code::SystemError),
    }
}

// whether a read sets a watch: with -w where the node is there, and a stat on a missing node too
#[tactic(auto, using(crate::proofs::Finding::sets_is))]
fn sets_watch(command: &Command, found: &Option<Node>) -> bool
    requires { is_read (want_of command.now) ≡ true }
    ensures { result ≡ sets_watch (want_of command.now) found.now }
{
    match command {
        Command::Get { watch, .. } | Command::Ls { watch, .. } => *watch && found.is_some(),
        Command::Stat { watch, .. } => *watch,
        Command::Create { .. }
        | Command::Set { .. }
        | Command::Delete { .. }
        | Command::Close
        | Command::Multi { .. } => false,
    }
}

impl Client {
    /// What it looks for, where it does.
    #[tactic(auto, unfolding(crate::specs::Standing::client_of), using(crate::proofs::Asking::read_next))]
    pub(crate) fn target(&self) -> Option<Target>
        ensures { let m = client_of self.now in
            target_in result ≡ target_of by_outcome m.seen m.client m.client.reading }
    {
        let sent = target_sent(&self.sent);
        match &self.reading {
            None => sent,
            Some(reading) => {
                if reading.looked {
                    return sent;
                }
                Some(Target {
                    command: self.place(),
                    number: self.seen.max(reading.stamp),
                })
            }
        }
    }

    /// It looks whether its line may be printed.
    #[tactic(auto, unfolding(crate::specs::Standing::client_of))]
    pub(crate) fn look(
        &mut self,
        user: &mut UserStore,
        target: Target,
    ) -> Result<(Op, Lines), NoMemory>
        ensures op { let u = store_of user.old in
            (q : post.Meaning) (w : Watches) (told : Option Tell)
            → IfOk result (λ r. r.0 ≡ failed_if u.armed (look_op
            (sight_by q w u told (client_of self.old)) self.old.held.items (target_as target))) }
        ensures lines { Prints result (client_of self.old) }
        ensures client { GoesOn result (client_of self.old) (client_of self.new) }
        ensures user { IfOk result (λ r. store_of user.new ≡ user_by r.0 (store_of user.old)) }
        ensures table { KeepsTable result }
        ensures post { KeepsPost result (client_of self.old) }
        ensures watches { KeepsWatches result (client_of self.old) }
    {
        let session = self.session;
        let command = target.command;
        match look_at(user, self.held.as_slice(), target.number) {
            Looked::Failed => Ok((Op::LookFault { session, command }, Lines::new(self.alloc))),
            Looked::Behind(mark) => Ok((
                Op::LookBehind {
                    session,
                    command,
                    mark,
                },
                Lines::new(self.alloc),
            )),
            Looked::Held { mark, watch } => Ok((
                Op::LookHeld {
                    session,
                    command,
                    mark,
                    watch,
                },
                Lines::new(self.alloc),
            )),
            Looked::Free(mark) => {
                let lines = self.looked()?;
                Ok((
                    Op::LookOk {
                        session,
                        command,
                        mark,
                    },
                    lines,
                ))
            }
        }
    }

    // the look was ok
    #[tactic(auto, unfolding(crate::specs::Standing::client_of))]
    fn looked(&mut self) -> Result<Lines, NoMemory>
        ensures lines { let m = client_of self.old in
            IfOk result (λ ls. ls ≡ looked_lines (wording m) m.seen m.client m.client.reading) }
        ensures client { let m = client_of self.old in
            IfOk result (λ ls. client_of self.new
            ≡ seeing ls (looked by_outcome m.asks m.client.reading m.client) m) }
    {
        match self.reading.take() {
            None => self.reply(),
            Some(reading) => self.read_on(reading),
        }
    }

    // the first reply is printed, and leaves the list
    #[tactic(auto, unfolding(crate::specs::Standing::client_of), using(crate::proofs::Waiting::front_tail))]
    fn reply(&mut self) -> Result<Lines, NoMemory>
        ensures lines { let m = client_of self.old in
            IfOk result (λ ls. ls ≡ first_line (wording m) m.client.sent) }
        ensures client { let m = client_of self.old in
            IfOk result (λ ls. client_of self.new
            ≡ seeing ls (looked_for by_outcome m.asks m.client.sent m.client) m) }
    {
        let mut lines = Lines::new(self.alloc);
        let Some(first) = self.sent.pop() else {
            return Ok(lines);
        };
        let line = reply_line(self.alloc, self.session, self.commands.as_slice(), &first)?;
        print(self.session, &mut self.seen, &mut lines, line)?;
        self.close_after(first.command);
        Ok(lines)
    }

    // an answered close makes the session known as closed, and its watches no longer held
    #[tactic(auto, unfolding(crate::specs::Standing::client_of))]
    fn close_after(&mut self, command: u32)
        ensures { let m = client_of self.old in
            client_of self.new ≡ holding (close_if (is_close (nth m.asks command)) m.client) m }
    {
        let closes = match command_at(self.commands.as_slice(), command) {
            None => false,
            Some(command) => is_close(command),
        };
        if closes {
            self.held = Vec::new(self.alloc);
            self.closed = true;
        }
    }

    // a read that was looked at is answered, or waits for its registration
    #[tactic(auto, unfolding(crate::specs::Standing::client_of), using(crate::proofs::Asking::read_next, crate::proofs::Finding::sets_is))]
    fn read_on(&mut self, reading: Reading) -> Result<Lines, NoMemory>
        requires reads { asks_read (next_ask (client_of self.old)) ≡ true }
        ensures lines { let m = client_of self.old in
            IfOk result (λ ls. ls
            ≡ looked_lines (wording m) m.seen m.client (Some (reading_as reading))) }
        ensures client { let m = client_of self.old in
            let sets = registers (next_ask m) reading.node in
            IfOk result (λ ls. client_of self.new
            ≡ seeing ls (rules.looked_at sets (reading_as reading) m.client) m) }
    {
        let Some(command) = self.next() else {
            unreachable!();
        };
        if sets_watch(command, &reading.node) {
            self.reading = Some(Reading {
                node: reading.node,
                stamp: reading.stamp,
                looked: true,
            });
            return Ok(Lines::new(self.alloc));
        }
        self.answer(reading)
    }

    /// Its read is answered.
    #[tactic(auto, unfolding(crate::specs::Standing::client_of), using(crate::proofs::Asking::read_next, crate::proofs::Finding::shown_is))]
    pub(crate) fn answer(&mut self, reading: Reading) -> Result<Lines, NoMemory>
        requires reads { asks_read (next_ask (client_of self.old)) ≡ true }
        ensures lines { let m = client_of self.old in
            IfOk result (λ ls. ls ≡ read_lines m (reading_as reading)) }
        ensures client { let m = client_of self.old in
            IfOk result (λ ls. client_of self.new ≡ seeing ls (answered m.client) m) }
    {
        let Some(command) = self.next() else {
            unreachable!();
        };
        let at = self.seen.max(reading.stamp);
        let shown = shown_found(at, reading.node, command);
        self.end(shown)
    }

    /// Its next command, a read, shows this, and is done.
    #[tactic(auto, unfolding(crate::specs::Standing::client_of), using(crate::proofs::Asking::read_next))]
    pub(crate) fn end(&mut self, shown: Shown) -> Result<Lines, NoMemory>
        requires reads { asks_read (next_ask (client_of self.old)) ≡ true }
        ensures lines { IfOk result (λ ls. ls ≡ next_lines (client_of self.old) shown) }
        ensures client { let m = client_of self.old in
            IfOk result (λ ls. client_of self.new ≡ seeing ls (answered m.client) m) }
    {
        let mut lines = Lines::new(self.alloc);
        let place = self.place();
        let line = line_for(self.session, place, self.next(), shown);
        print(self.session, &mut self.seen, &mut lines, line)?;
        self.begun = place;
        self.reading = None;
        Ok(lines)
    }
}
