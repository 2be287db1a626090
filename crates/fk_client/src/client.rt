ghost use Rattle.std.specs.Prelude.{◌≡◌, not, ◌<◌, ◌+◌, ◌^◌, length, true, is_some, option_map, option_copied, OnSome};
ghost use Rattle.fk_client.specs.Idle.{owes_none};
ghost use Rattle.fk_client.specs.Meaning.{asks_read, is_finished, new_client, next_ask};
ghost use Rattle.fk_client.specs.Unanswered.{front_goes_on, places_of};
ghost use Rattle.fk_spec.specs.Plan.{ask_of, asks_of, nth};

use crate::lists::command_after;
use crate::reading::Reading;
use crate::sent_list::SentList;
use fk_script::{Command, Commands};
use fk_wire::Reader;
use std::alloc::Global;

/// The client of a session: it makes one operation per step, on the services that it is lent.
#[derive(Drop)]
pub struct Client {
    pub(crate) alloc: Global,
    pub(crate) session: u32,
    pub(crate) commands: Commands,
    /// The greatest number that it has printed.
    pub(crate) seen: u64,
    /// How many commands it began.
    pub(crate) begun: u32,
    pub(crate) sent: SentList,
    /// The watches that it holds.
    pub(crate) held: Vec<u64>,
    /// The ping that it owes an answer.
    pub(crate) owed: Option<u64>,
    pub(crate) reading: Option<Reading>,
    /// Whether it knows that its session is closed.
    pub(crate) closed: bool,
    /// The text of the message that it took last.
    pub(crate) reader: Reader,
    ghost few: { length commands < 2 ^ 32 },
    ghost reads: { is_some reading ≡ true
        → asks_read (nth (asks_of commands) (begun + 1)) ≡ true },
    ghost front: { front_goes_on (asks_of commands) (places_of sent) ≡ true },
}

impl Client {
    ghost use Rattle.fk_client.specs.Standing.{client_of};

    /// The client of a session with these commands, fewer than 2^32.
    #[tactic(auto, unfolding(crate::specs::Standing::client_of))]
    pub fn new(alloc: Global, session: u32, commands: Commands) -> Client
        requires { length commands < 2 ^ 32 }
        ensures { client_of result ≡ new_client session (asks_of commands) }
    {
        Client {
            alloc,
            session,
            commands,
            seen: 0,
            begun: 0,
            sent: SentList::new(alloc),
            held: Vec::new(alloc),
            owed: None,
            reading: None,
            closed: false,
            reader: Reader::new(alloc),
        }
    }

    /// Its next command.
    #[tactic(auto, unfolding(crate::specs::Standing::client_of))]
    pub(crate) fn next(&self) -> Option<&Command>
        ensures next { option_map ask_of (option_copied result) ≡ next_ask (client_of self.now) }
        ensures within { OnSome result (self.now.begun < length self.now.commands) }
    {
        command_after(self.commands.as_slice(), self.begun)
    }

    /// The place of its next command, from 1.
    #[tactic(auto, unfolding(crate::specs::Standing::client_of))]
    pub(crate) fn place(&self) -> u32
        requires { is_some (next_ask (client_of self.now)) ≡ true }
        ensures { result ≡ self.now.begun + 1 }
    {
        let Some(_) = self.next() else {
            unreachable!();
        };
        self.begun + 1
    }

    /// Whether it owes a ping its answer.
    #[tactic(auto, unfolding(crate::specs::Standing::client_of))]
    pub fn owes(&self) -> bool
        ensures { result ≡ not (owes_none (client_of self.now).client.owed) }
    {
        self.owed.is_some()
    }

    /// Whether every command has been answered.
    #[tactic(auto, unfolding(crate::specs::Standing::client_of))]
    pub fn finished(&self) -> bool
        ensures { result ≡ is_finished (client_of self.now) }
    {
        self.sent.is_empty() && self.next().is_none()
    }
}
