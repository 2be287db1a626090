ghost use Rattle.std.specs.Prelude.{◌≡◌, ◌<◌, ◌∷◌, ◌++◌, [], length, IfOk, IfNone, OnOk};
ghost use Rattle.fk_script.specs.declared.place.Place.TheVariants as place;
ghost use Rattle.std.specs.Option.{option_to_list};
ghost use Rattle.fk_script.specs.declared.place.Kind.TheVariants as kind;
ghost use Rattle.fk_script.specs.SoFar.{after, kind_of, meant, nothing, with_command};
ghost use Rattle.fk_script.specs.Reasons.{reason};
ghost use Rattle.fk_script.specs.Values.{most_clients};

use crate::client_name::is_client_name;
use crate::command::Command;
use crate::command_words::CommandWords;
use crate::deployment::{Block, Deployment};
use crate::event_words::{event_fits, has_bad_number, has_no_client, is_event_name, turn_of};
use crate::lists::{Clients, Commands, Turns};
use crate::place::{Kind, Place};
use crate::values::{MOST_CLIENTS, MOST_COMMANDS, MOST_TIME, MOST_TURNS, number};
use crate::why::Why;
use crate::words::{Word, first, has_name, second};
use fk_base::{Config, Names, NoMemory, Text};
use std::alloc::Global;
use std::marker::Model;

/// What the lines so far say.
#[derive(Drop)]
pub(crate) struct Progress {
    place: Place,
    lock: Option<u64>,
    beat: Option<u64>,
    names: Names,
    /// The clients before the last one.
    finished: Clients,
    /// The last client, which takes the commands.
    last: Option<Block>,
    commands: u64,
    turns: Turns,
}

impl Model for Progress {
    ghost use Rattle.std.specs.Prelude.{◌≡◌, ◌≤◌, ◌||◌, ◌==◌, ◌++◌, true, length, is_some};
    ghost use Rattle.std.specs.Option.{option_to_list};
    ghost use Rattle.fk_script.specs.SoFar.{SoFar};
    ghost use Rattle.fk_script.specs.Values.{most_clients, most_commands};

    ghost Value = { SoFar };

    ghost view = { λ p. record { place = p.place; lock = p.lock; beat = p.beat; names = p.names; clients = p.finished ++ option_to_list p.last; commands = p.commands; turns = p.turns } };

    ghost invariant = { λ p. (length p.names ≤ most_clients) × (p.commands ≤ most_commands) × ((is_some p.last || (length p.finished == 0)) ≡ true) };
}

impl Progress {
    pub(crate) fn new(alloc: Global) -> Progress
        ensures { result ≡ nothing }
    {
        Progress {
            place: Place::Start,
            lock: None,
            beat: None,
            names: Names::new(alloc),
            finished: Clients::new(alloc),
            last: None,
            commands: 0,
            turns: Turns::new(alloc),
        }
    }

    /// The deployment that the lines say.
    pub(crate) fn deployment(self) -> Result<Deployment, NoMemory>
        ensures { IfOk result (λ d. d ≡ meant self) }
    {
        let Progress {
            place,
            lock,
            beat,
            names: _,
            finished,
            last,
            commands: _,
            turns,
        } = self;
        Ok(Deployment {
            config: Config {
                lock: lock.unwrap_or(10),
                beat: beat.unwrap_or(30),
            },
            clients: joined(finished, last)?,
            turns,
            scheduled: place.is_schedule(),
        })
    }
}

/// These clients and the last one.
fn joined(mut clients: Clients, last: Option<Block>) -> Result<Clients, NoMemory>
    ensures { IfOk result (λ l. l ≡ clients ++ option_to_list last) }
{
    if let Some(block) = last {
        clients.push(block)?;
    }
    Ok(clients)
}

/// One line more: why it offends, or what it says.
impl Progress {
    pub(crate) fn read_line<'a>(
        &mut self,
        alloc: Global,
        words: &'a [Word<'a>],
    ) -> Result<Option<Why>, NoMemory>
        ensures exact { IfOk result (λ o. o ≡ reason self.old (kind_of self.old.place words.now) words.now) }
        ensures none { IfOk result (λ o. IfNone o (self.new ≡ after (kind_of self.old.place words.now) words.now self.old)) }
    {
        match self.place.kind_of(words) {
            Kind::Skipped => Ok(None),
            Kind::Lock => Ok(self.read_lock(words)),
            Kind::Beat => Ok(self.read_beat(words)),
            Kind::Client => self.read_client(alloc, words),
            Kind::Schedule => Ok(self.read_schedule(words)),
            Kind::Command => self.read_command(alloc, words),
            Kind::Event => self.read_event(words),
            Kind::Unknown => Ok(Some(Why::UnknownLine)),
        }
    }

    fn read_lock(&mut self, words: &[Word<'_>]) -> Option<Why>
        ensures exact { result ≡ reason self.old kind.Lock words.now }
        ensures none { IfNone result (self.new ≡ after kind.Lock words.now self.old) }
    {
        if words.len() != 2 || self.lock.is_some() {
            return Some(Why::BadWords);
        }
        let Some(time) = number(MOST_TIME, &second(words)) else {
            return Some(Why::BadNumber);
        };
        self.lock = Some(time);
        None
    }

    fn read_beat(&mut self, words: &[Word<'_>]) -> Option<Why>
        ensures exact { result ≡ reason self.old kind.Beat words.now }
        ensures none { IfNone result (self.new ≡ after kind.Beat words.now self.old) }
    {
        if words.len() != 2 || self.beat.is_some() {
            return Some(Why::BadWords);
        }
        let Some(time) = number(MOST_TIME, &second(words)) else {
            return Some(Why::BadNumber);
        };
        self.beat = Some(time);
        None
    }

    fn read_schedule(&mut self, words: &[Word<'_>]) -> Option<Why>
        ensures exact { result ≡ reason self.old kind.Schedule words.now }
        ensures none { IfNone result (self.new ≡ after kind.Schedule words.now self.old) }
    {
        if words.len() != 1 {
            return Some(Why::BadWords);
        }
        self.place = Place::Schedule;
        None
    }

    fn read_client(&mut self, alloc: Global, words: &[Word<'_>]) -> Result<Option<Why>, NoMemory>
        ensures exact { IfOk result (λ o. o ≡ reason self.old kind.Client words.now) }
        ensures none { IfOk result (λ o. IfNone o (self.new ≡ after kind.Client words.now self.old)) }
    {
        if words.len() != 2 {
            return Ok(Some(Why::BadWords));
        }
        let name = second(words);
        if !is_client_name(&name) {
            return Ok(Some(Why::BadName));
        }
        if has_name(self.names.as_slice(), &name) {
            return Ok(Some(Why::RepeatedName));
        }
        if self.names.len() >= MOST_CLIENTS {
            return Ok(Some(Why::TooMany));
        }
        self.start_client(alloc, name.text())?;
        Ok(None)
    }

    /// A client more.
    fn start_client(&mut self, alloc: Global, name: &str) -> Result<(), NoMemory>
        requires { length self.old.names < most_clients }
        ensures { OnOk result (self.new ≡ record self.old { place = place.Client; names = self.old.names ++ name.now ∷ []; clients = self.old.clients ++ record { name = name.now; commands = [] } ∷ [] }) }
    {
        let block = Block {
            name: Text::from_str(alloc, name)?,
            commands: Commands::new(alloc),
        };
        self.names.push(Text::from_str(alloc, name)?)?;
        if let Some(before) = self.last.replace(block) {
            self.finished.push(before)?;
        }
        self.place = Place::Client;
        Ok(())
    }

    fn read_command<'a>(
        &mut self,
        alloc: Global,
        words: &'a [Word<'a>],
    ) -> Result<Option<Why>, NoMemory>
        ensures exact { IfOk result (λ o. o ≡ reason self.old kind.Command words.now) }
        ensures none { IfOk result (λ o. IfNone o (self.new ≡ after kind.Command words.now self.old)) }
    {
        let line = CommandWords::of(alloc, words)?;
        if line.is_unknown() {
            return Ok(Some(Why::UnknownCommand));
        }
        if line.has_wrong_option() {
            return Ok(Some(Why::BadOption));
        }
        if line.has_wrong_words() {
            return Ok(Some(Why::BadWords));
        }
        if line.has_wrong_version() {
            return Ok(Some(Why::BadNumber));
        }
        if line.has_wrong_base64(alloc)? {
            return Ok(Some(Why::BadBase64));
        }
        let weight = line.weight();
        if self.commands + weight > MOST_COMMANDS {
            return Ok(Some(Why::TooMany));
        }
        self.add(line.command(alloc)?)?;
        self.commands += weight;
        Ok(None)
    }

    /// A command more for the last client.
    #[tactic(auto, using(crate::proofs::LastClient::with_last_command, crate::proofs::LastClient::without_last))]
    fn add(&mut self, command: Command) -> Result<(), NoMemory>
        ensures { OnOk result (self.new ≡ record self.old { clients = with_command command self.old.clients }) }
    {
        let Some(mut block) = self.last.take() else {
            return Ok(());
        };
        let pushed = block.commands.push(command);
        self.last = Some(block);
        pushed
    }

    fn read_event(&mut self, words: &[Word<'_>]) -> Result<Option<Why>, NoMemory>
        ensures exact { IfOk result (λ o. o ≡ reason self.old kind.Event words.now) }
        ensures none { IfOk result (λ o. IfNone o (self.new ≡ after kind.Event words.now self.old)) }
    {
        if !is_event_name(&first(words)) {
            return Ok(Some(Why::UnknownEvent));
        }
        if !event_fits(words) {
            return Ok(Some(Why::BadWords));
        }
        if has_bad_number(words) {
            return Ok(Some(Why::BadNumber));
        }
        if has_no_client(self.names.as_slice(), words) {
            return Ok(Some(Why::UnknownClient));
        }
        if self.turns.as_slice().len() >= MOST_TURNS {
            return Ok(Some(Why::TooMany));
        }
        self.turns.push(turn_of(self.names.as_slice(), words))?;
        Ok(None)
    }
}
