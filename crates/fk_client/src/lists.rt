//! What a client finds in its lists.

ghost use Rattle.std.specs.Prelude.{◌≡◌, ◌<◌, ◌+◌, true, length, Some, None, option_copied, option_map, OnOk, OnSome};
ghost use Rattle.fk_spec.specs.Client.{all_go_on, contains, first_held, without, with_held};
ghost use Rattle.fk_spec.specs.Plan.{ask_of, asks_of, nth};
ghost use Rattle.fk_client.specs.Known.{by_outcome};
ghost use Rattle.fk_client.specs.Unanswered.{front_goes_on, places_of};

use crate::sent_list::SentList;
use crate::want::waits;
use fk_base::NoMemory;
use fk_script::Command;

/// The command after this many.
#[tactic(auto, using(crate::proofs::Asking::item_within, crate::proofs::Asking::item_past))]
pub fn command_after(commands: &[Command], count: u32) -> Option<&Command>
    ensures command { option_map ask_of (option_copied result)
        ≡ nth (asks_of commands.now) (count + 1) }
    ensures within { OnSome result (count < length commands.now) }
{
    let place = count as usize;
    if place < commands.len() {
        Some(&commands[place])
    } else {
        None
    }
}

/// The command at a place, from 1.
pub fn command_at(commands: &[Command], place: u32) -> Option<&Command>
    ensures { option_map ask_of (option_copied result) ≡ nth (asks_of commands.now) place }
{
    if place == 0 {
        return None;
    }
    command_after(commands, place - 1)
}

/// Whether a number is among these.
pub fn contains(numbers: &[u64], id: u64) -> bool
    ensures { result ≡ contains id numbers.now }
{
    match numbers {
        [] => false,
        [first, rest @ ..] => *first == id || contains(rest, id),
    }
}

/// The first of these numbers that is held.
pub fn first_held(epoch: &[u64], held: &[u64]) -> Option<u64>
    ensures { result ≡ first_held epoch.now held.now }
{
    match epoch {
        [] => None,
        [first, rest @ ..] => {
            if contains(held, *first) {
                Some(*first)
            } else {
                first_held(rest, held)
            }
        }
    }
}

/// Whether none of these has to be waited for, where that holds of all but the last.
#[tactic(auto, using(crate::proofs::Waiting::last_goes))]
pub fn all_go_on(commands: &[Command], sent: &SentList) -> bool
    requires { front_goes_on (asks_of commands.now) (places_of sent.now) ≡ true }
    ensures { result ≡ all_go_on by_outcome (asks_of commands.now) sent.now }
{
    match sent.last() {
        None => true,
        Some(last) => match command_at(commands, last.command) {
            None => false,
            Some(command) => !waits(command),
        },
    }
}

/// Takes a number out of these.
pub fn forget(numbers: &mut Vec<u64>, id: u64)
    ensures { numbers.new.items ≡ without id numbers.old.items }
{
    numbers.retain(|n| *n != id);
}

/// Adds a number to these; one that is there already isn't added.
pub fn hold(numbers: &mut Vec<u64>, id: u64) -> Result<(), NoMemory>
    ensures { OnOk result (numbers.new.items ≡ with_held id numbers.old.items) }
{
    if !contains(numbers.as_slice(), id) {
        numbers.push(id)?;
    }
    Ok(())
}
