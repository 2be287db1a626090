//! The line of a turn of the schedule.

ghost use Rattle.std.specs.Prelude.{◌≡◌, ◌≤◌, ◌&&◌, ◌||◌, not, [], ◌∷◌, codes, length};
ghost use Rattle.fk_script.specs.Lines.{is, is_one_of};
ghost use Rattle.fk_script.specs.EventLines.{client_word, delivery_of, event_fits, event_of, is_bad_number, is_event_name, is_no_client, number_of, number_word, session, turn_of};

use crate::deployment::Turn;
use crate::values::{MOST_EVENT, number};
use crate::words::{Word, has_name};
use fk_base::Text;
use fk_print::Event;

pub(crate) fn is_event_name(name: &Word<'_>) -> bool
    ensures { result ≡ is_event_name name.now }
{
    name.is("client")
        || name.is("deliver")
        || name.is("beat")
        || name.is("step")
        || name.is("crash")
        || name.is("fail")
        || name.is("clock")
        || name.is("drain")
}

/// Whether the words are as many as the event has.
pub(crate) fn event_fits(words: &[Word<'_>]) -> bool
    ensures { result ≡ event_fits words.now }
{
    match words {
        [word] => word.is("drain"),
        [word, _] => !word.is("drain"),
        [word, second, _] => word.is("fail") && second.is("client"),
        _ => false,
    }
}

/// The word that stands for a number.
fn number_word<'a>(words: &[Word<'a>]) -> Option<Word<'a>>
    ensures { result ≡ number_word words.now }
{
    match words {
        [word, value] if takes_a_number(word) => Some(value.again()),
        _ => None,
    }
}

fn takes_a_number(name: &Word<'_>) -> bool
    ensures { result ≡ is_one_of (codes "step" ∷ codes "crash" ∷ codes "fail" ∷ codes "clock" ∷ []) name.now }
{
    name.is("step") || name.is("crash") || name.is("fail") || name.is("clock")
}

/// The word that stands for a client.
fn client_word<'a>(words: &[Word<'a>]) -> Option<Word<'a>>
    ensures { result ≡ client_word words.now }
{
    match words {
        [word, value] if takes_a_client(word, value) => Some(value.again()),
        [_, _, client, ..] => Some(client.again()),
        _ => None,
    }
}

/// A client takes its turn, is sent a message or has a heartbeat.
fn takes_a_client(name: &Word<'_>, value: &Word<'_>) -> bool
    ensures { result ≡ (is_one_of (codes "client" ∷ codes "beat" ∷ []) name.now || (is name.now (codes "deliver") && not (is_one_of (codes "leader" ∷ codes "watch" ∷ []) value.now))) }
{
    name.is("client")
        || name.is("beat")
        || (name.is("deliver") && !(value.is("leader") || value.is("watch")))
}

/// Whether an event has a number that is none, or is beyond its limit.
pub(crate) fn has_bad_number(words: &[Word<'_>]) -> bool
    ensures { result ≡ is_bad_number (number_word words.now) }
{
    match number_word(words) {
        Some(word) => number(MOST_EVENT, &word).is_none(),
        None => false,
    }
}

/// Whether an event is of a client that isn't among these.
pub(crate) fn has_no_client(names: &[Text], words: &[Word<'_>]) -> bool
    ensures { result ≡ is_no_client names.now (client_word words.now) }
{
    match client_word(words) {
        Some(name) => !has_name(names, &name),
        None => false,
    }
}

/// A client's place among the names, from 1.
fn session(names: &[Text], name: &Word<'_>) -> u32
    requires { length names.now ≤ 64 }
    ensures { result ≡ session names.now name.now }
{
    let mut session = 0;
    let mut rest = names;
    'looking: while let [other, others @ ..] = rest {
        session += 1;
        if name.is(other.as_str()) {
            return session;
        }
        rest = others;
    }
    session
}

fn number_of(word: &Word<'_>) -> u64
    ensures { result ≡ number_of word.now }
{
    number(MOST_EVENT, word).unwrap_or(0)
}

/// The turn that the words say.
pub(crate) fn turn_of(names: &[Text], words: &[Word<'_>]) -> Turn
    requires { length names.now ≤ 64 }
    ensures { result ≡ turn_of names.now words.now }
{
    match words {
        [] | [_] => Turn::Drain,
        [name, value] => Turn::One(event_of(names, name, value)),
        [_, _, client, ..] => Turn::One(Event::FailClient(session(names, client))),
    }
}

/// The event of a name and the word behind it.
fn event_of(names: &[Text], name: &Word<'_>, value: &Word<'_>) -> Event
    requires { length names.now ≤ 64 }
    ensures { result ≡ event_of names.now name.now value.now }
{
    if name.is("client") {
        Event::Client(session(names, value))
    } else if name.is("deliver") {
        delivery_of(names, value)
    } else if name.is("beat") {
        Event::Beat(session(names, value))
    } else if name.is("step") {
        Event::Step(number_of(value))
    } else if name.is("crash") {
        Event::Crash(number_of(value))
    } else if name.is("fail") {
        Event::Fail(number_of(value))
    } else {
        Event::Clock(number_of(value))
    }
}

fn delivery_of(names: &[Text], value: &Word<'_>) -> Event
    requires { length names.now ≤ 64 }
    ensures { result ≡ delivery_of names.now value.now }
{
    if value.is("leader") {
        Event::Leader
    } else if value.is("watch") {
        Event::Watch
    } else {
        Event::Deliver(session(names, value))
    }
}
