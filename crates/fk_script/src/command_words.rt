ghost use Rattle.std.specs.Prelude.{◌≡◌, ◌≤◌, not, codes, length, map, IfOk};
ghost use Rattle.std.specs.List.{list_any, slice_split};
ghost use Rattle.fk_script.specs.Lines.{is};
ghost use Rattle.fk_script.specs.CommandLines.{command_line, has_wrong_base64, has_wrong_option, has_wrong_version, has_wrong_words, is_multi, is_unknown, lone_command, meant_command, phrases, spoken, waits, weight};
ghost use Rattle.fk_script.specs.Phrases.{fits, has_bad_base64, has_bad_option, is_bad_version, is_unknown_part, part_of, phrase};

use crate::command::Command;
use crate::lists::PartCommands;
use crate::part_words::{PartWords, is_always_waited_for, is_command_name};
use crate::words::{Word, first};
use fk_base::NoMemory;
use std::alloc::Global;
use std::marker::Model;

/// The line of a command: its name, and its parts or the command alone.
#[derive(Drop)]
pub(crate) struct CommandWords<'a> {
    wait: bool,
    name: Word<'a>,
    parts: Vec<PartWords<'a>>,
}

impl<'a> Model for CommandWords<'a> {
    ghost use Rattle.fk_script.specs.CommandLines.{CommandLine};

    ghost Value = { CommandLine };

    ghost view = { λ l. record { wait = l.wait; name = l.name; phrases = l.parts.items } };
}

impl<'a> CommandWords<'a> {
    pub(crate) fn of(alloc: Global, words: &'a [Word<'a>]) -> Result<CommandWords<'a>, NoMemory>
        ensures { IfOk result (λ l. l ≡ command_line words.now) }
    {
        let spoken = spoken(words);
        Ok(CommandWords {
            wait: waits(words),
            name: first(spoken),
            parts: parts_of(alloc, spoken)?,
        })
    }
}

/// Whether the client waits for the command.
fn waits(words: &[Word<'_>]) -> bool
    ensures { result ≡ waits words.now }
{
    match words {
        [] => true,
        [word, ..] => !word.is("&"),
    }
}

/// The words behind the `&`.
fn spoken<'w, 'a>(words: &'w [Word<'a>]) -> &'w [Word<'a>]
    ensures { result.now ≡ spoken words.now }
{
    match words {
        [] => words,
        [word, rest @ ..] => { if word.is("&") { rest } else { words } }
    }
}

/// The parts of a multi, or the command alone.
fn parts_of<'a>(alloc: Global, words: &'a [Word<'a>]) -> Result<Vec<PartWords<'a>>, NoMemory>
    ensures { IfOk result (λ v. v.items ≡ phrases words.now) }
{
    match words {
        [name, rest @ ..] if name.is("multi") => cut(alloc, rest),
        _ => {
            let mut parts = Vec::new(alloc);
            parts.push(PartWords::of(alloc, words)?)?;
            Ok(parts)
        }
    }
}

/// The parts between each `;` and the next.
fn cut<'a>(alloc: Global, words: &'a [Word<'a>]) -> Result<Vec<PartWords<'a>>, NoMemory>
    ensures { IfOk result (λ v. v.items ≡ map phrase (slice_split (λ word. is word (codes ";")) words.now)) }
{
    let mut parts = Vec::new(alloc);
    'cutting: for part in words.split(|word| word.is(";")) {
        parts.push(PartWords::of(alloc, part)?)?;
    }
    Ok(parts)
}

/// What the line says against the rules.
impl<'a> CommandWords<'a> {
    fn is_multi(&self) -> bool
        ensures { result ≡ is_multi self.now }
    {
        self.name.is("multi")
    }

    /// No command's name, though `&` may stand alone, or a multi with a part of another name.
    pub(crate) fn is_unknown(&self) -> bool
        ensures { result ≡ is_unknown self.now }
    {
        !self.name.is("")
            && (!is_command_name(&self.name)
                || (self.is_multi() && have_unknown(self.parts.as_slice())))
    }

    pub(crate) fn has_wrong_option(&self) -> bool
        ensures { result ≡ has_wrong_option self.now }
    {
        (!self.wait && is_always_waited_for(&self.name))
            || have_bad_option(self.is_multi(), self.parts.as_slice())
    }

    pub(crate) fn has_wrong_words(&self) -> bool
        ensures { result ≡ has_wrong_words self.now }
    {
        (self.is_multi() && self.parts.len() > 16) || have_misfit(self.parts.as_slice())
    }

    pub(crate) fn has_wrong_version(&self) -> bool
        ensures { result ≡ has_wrong_version self.now }
    {
        have_bad_version(self.parts.as_slice())
    }

    pub(crate) fn has_wrong_base64(&self, alloc: Global) -> Result<bool, NoMemory>
        ensures { IfOk result (λ b. b ≡ has_wrong_base64 self.now) }
    {
        have_bad_base64(alloc, self.parts.as_slice())
    }

    /// How many commands the line counts as.
    pub(crate) fn weight(&self) -> u64
        ensures { result ≡ weight self.now }
    {
        if self.is_multi() {
            self.parts.len() as u64 + 1
        } else {
            1
        }
    }
}

fn have_unknown(parts: &[PartWords<'_>]) -> bool
    ensures { result ≡ list_any is_unknown_part parts.now }
{
    parts.iter().any(|part| part.is_unknown())
}

fn have_bad_option(in_multi: bool, parts: &[PartWords<'_>]) -> bool
    ensures { result ≡ list_any (has_bad_option in_multi) parts.now }
{
    parts.iter().any(|part| part.has_bad_option(in_multi))
}

fn have_misfit(parts: &[PartWords<'_>]) -> bool
    ensures { result ≡ list_any (λ p. not (fits p)) parts.now }
{
    parts.iter().any(|part| !part.fits())
}

fn have_bad_version(parts: &[PartWords<'_>]) -> bool
    ensures { result ≡ list_any (λ p. is_bad_version p.version) parts.now }
{
    parts.iter().any(|part| part.has_bad_version())
}

fn have_bad_base64(alloc: Global, parts: &[PartWords<'_>]) -> Result<bool, NoMemory>
    ensures { IfOk result (λ b. b ≡ list_any has_bad_base64 parts.now) }
{
    let mut rest = parts;
    'looking: while let [part, others @ ..] = rest {
        if part.has_bad_base64(alloc)? {
            return Ok(true);
        }
        rest = others;
    }
    Ok(false)
}

/// What the line says.
impl<'a> CommandWords<'a> {
    pub(crate) fn command(&self, alloc: Global) -> Result<Command, NoMemory>
        ensures { IfOk result (λ c. c ≡ meant_command self.now) }
    {
        if self.is_multi() {
            Ok(Command::Multi {
                parts: commands_of(alloc, self.parts.as_slice())?,
                wait: self.wait,
            })
        } else {
            lone_command(alloc, self.wait, self.parts.as_slice())
        }
    }
}

fn lone_command(alloc: Global, wait: bool, parts: &[PartWords<'_>]) -> Result<Command, NoMemory>
    ensures { IfOk result (λ c. c ≡ lone_command wait parts.now) }
{
    match parts {
        [] => Ok(Command::Close),
        [part, ..] => part.command(alloc, wait),
    }
}

fn commands_of(alloc: Global, parts: &[PartWords<'_>]) -> Result<PartCommands, NoMemory>
    ensures { IfOk result (λ l. l ≡ map part_of parts.now) }
{
    let mut commands = PartCommands::new(alloc);
    'telling: for part in parts {
        commands.push(part.part(alloc)?)?;
    }
    Ok(commands)
}
