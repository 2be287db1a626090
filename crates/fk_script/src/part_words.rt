ghost use Rattle.std.specs.Prelude.{◌≡◌, false, [], ◌∷◌, codes, IfOk};
ghost use Rattle.std.specs.List.{list_all};
ghost use Rattle.fk_script.specs.Lines.{first, is_one_of};
ghost use Rattle.fk_script.specs.Phrases.{bytes, command_of, data_bytes, data_word, expected, fits, from_path, has_bad_base64, has_bad_option, has_option, is_always_waited_for, is_bad_data, is_bad_version, is_command_name, is_option, is_option_of, is_part_name, is_unknown_part, options, part_of, phrase, read_of, version_word};

use crate::command::{Command, PartCommand};
use crate::values::{decoded, version};
use crate::words::{Word, first, has_repeated, is_one_of};
use fk_base::{Bytes, NoMemory, Text};
use std::alloc::Global;
use std::marker::Model;

/// A command, or a part of a multi, by its words.
#[derive(Drop)]
pub(crate) struct PartWords<'a> {
    name: Word<'a>,
    options: Vec<Word<'a>>,
    /// What stands behind `-v`.
    version: Option<Word<'a>>,
    /// The path and what stands behind it.
    rest: &'a [Word<'a>],
}

impl<'a> Model for PartWords<'a> {
    ghost use Rattle.fk_script.specs.Phrases.{Phrase};

    ghost Value = { Phrase };

    ghost view = { λ p. record { name = p.name; options = p.options.items; version = p.version; rest = p.rest.now } };
}

impl<'a> PartWords<'a> {
    pub(crate) fn of(alloc: Global, words: &'a [Word<'a>]) -> Result<PartWords<'a>, NoMemory>
        ensures { IfOk result (λ p. p ≡ phrase words.now) }
    {
        match words {
            [] => Ok(PartWords {
                name: Word::new(""),
                options: Vec::new(alloc),
                version: None,
                rest: words,
            }),
            [name, behind @ ..] => Ok(PartWords {
                name: name.again(),
                options: options(alloc, behind)?,
                version: version_word(behind),
                rest: from_path(behind),
            }),
        }
    }
}

/// An option starts with `-` and stands before the path.
fn is_option(word: &Word<'_>) -> bool
    ensures { result ≡ is_option word.now }
{
    word.starts_with(b'-')
}

/// The options at the front of the words; what stands behind `-v` is none.
fn options<'a>(alloc: Global, words: &[Word<'a>]) -> Result<Vec<Word<'a>>, NoMemory>
    ensures { IfOk result (λ v. v.items ≡ options false words.now) }
{
    let mut options = Vec::new(alloc);
    let mut behind_v = false;
    let mut rest = words;
    'reading: while let [word, others @ ..] = rest {
        rest = others;
        if behind_v {
            behind_v = false;
        } else if is_option(word) {
            options.push(word.again())?;
            behind_v = word.is("-v");
        } else {
            return Ok(options);
        }
    }
    Ok(options)
}

/// What stands behind `-v`.
fn version_word<'a>(words: &[Word<'a>]) -> Option<Word<'a>>
    ensures { result ≡ version_word false words.now }
{
    let mut behind_v = false;
    let mut rest = words;
    'looking: while let [word, others @ ..] = rest {
        if behind_v {
            return Some(word.again());
        }
        if !is_option(word) {
            return None;
        }
        behind_v = word.is("-v");
        rest = others;
    }
    None
}

/// The path and what stands behind it.
fn from_path<'w, 'a>(words: &'w [Word<'a>]) -> &'w [Word<'a>]
    ensures { result.now ≡ from_path false words.now }
{
    let mut behind_v = false;
    let mut rest = words;
    'skipping: while let [word, others @ ..] = rest {
        if behind_v {
            behind_v = false;
        } else if is_option(word) {
            behind_v = word.is("-v");
        } else {
            return rest;
        }
        rest = others;
    }
    rest
}

pub(crate) fn is_command_name(name: &Word<'_>) -> bool
    ensures { result ≡ is_command_name name.now }
{
    name.is("create")
        || name.is("set")
        || name.is("delete")
        || name.is("multi")
        || name.is("get")
        || name.is("stat")
        || name.is("ls")
        || name.is("close")
}

fn is_part_name(name: &Word<'_>) -> bool
    ensures { result ≡ is_part_name name.now }
{
    name.is("create") || name.is("set") || name.is("delete")
}

/// A command that doesn't write, or closes the session.
pub(crate) fn is_always_waited_for(name: &Word<'_>) -> bool
    ensures { result ≡ is_always_waited_for name.now }
{
    name.is("get") || name.is("stat") || name.is("ls") || name.is("close")
}

/// Whether a command of this name has the option.
fn is_option_of(in_multi: bool, name: &Word<'_>, option: &Word<'_>) -> bool
    ensures { result ≡ is_option_of in_multi name.now option.now }
{
    (option.is("-s") && name.is("create") && !in_multi)
        || (option.is("-e") && name.is("create"))
        || (option.is("-v") && (name.is("set") || name.is("delete")))
        || (option.is("-b") && (name.is("create") || name.is("set")))
        || (option.is("-w") && (name.is("get") || name.is("stat") || name.is("ls")))
}

/// The word of the data.
fn data_word<'w, 'a>(rest: &'w [Word<'a>]) -> Option<Word<'a>>
    ensures { result ≡ data_word rest.now }
{
    match rest {
        [_, word, ..] => Some(word.again()),
        _ => None,
    }
}

fn is_bad_version(word: &Option<Word<'_>>) -> bool
    ensures { result ≡ is_bad_version word.now }
{
    match word {
        Some(word) => version(word).is_none(),
        None => false,
    }
}

/// The version that is expected; -1 fits any.
fn expected(word: &Option<Word<'_>>) -> i32
    ensures { result ≡ expected word.now }
{
    match word {
        Some(word) => version(word).unwrap_or(-1),
        None => -1,
    }
}

fn is_bad_data(alloc: Global, word: &Option<Word<'_>>) -> Result<bool, NoMemory>
    ensures { IfOk result (λ b. b ≡ is_bad_data word.now) }
{
    match word {
        Some(word) => Ok(decoded(alloc, word)?.is_none()),
        None => Ok(false),
    }
}

/// The bytes that a word of data stands for.
fn data_bytes(alloc: Global, in_base64: bool, word: &Option<Word<'_>>) -> Result<Bytes, NoMemory>
    ensures { IfOk result (λ b. b ≡ data_bytes in_base64 word.now) }
{
    let Some(word) = word else {
        return Ok(Bytes::new(alloc));
    };
    if !in_base64 {
        return Bytes::from_slice(alloc, word.text().as_bytes());
    }
    match decoded(alloc, word)? {
        Some(bytes) => Ok(bytes),
        None => Ok(Bytes::new(alloc)),
    }
}

/// What a part says against its rules.
impl<'a> PartWords<'a> {
    /// A first word that no part has.
    pub(crate) fn is_unknown(&self) -> bool
        ensures { result ≡ is_unknown_part self.now }
    {
        !self.name.is("") && !is_part_name(&self.name)
    }

    /// An option that the command hasn't, or that is repeated.
    pub(crate) fn has_bad_option(&self, in_multi: bool) -> bool
        ensures { result ≡ has_bad_option in_multi self.now }
    {
        !self.has_its_options(in_multi) || has_repeated(self.options.as_slice())
    }

    fn has_its_options(&self, in_multi: bool) -> bool
        ensures { result ≡ list_all (is_option_of in_multi self.now.name) self.now.options }
    {
        have_options(in_multi, &self.name, self.options.as_slice())
    }

    /// A path, with data or without, where the command has them.
    pub(crate) fn fits(&self) -> bool
        ensures { result ≡ fits self.now }
    {
        let count = self.rest.len();
        (self.takes_data() && (count == 1 || count == 2))
            || (self.takes_a_path() && count == 1)
            || (self.name.is("close") && count == 0)
    }

    fn takes_data(&self) -> bool
        ensures { result ≡ is_one_of (codes "create" ∷ codes "set" ∷ []) self.now.name }
    {
        self.name.is("create") || self.name.is("set")
    }

    /// A path alone.
    fn takes_a_path(&self) -> bool
        ensures { result ≡ is_one_of (codes "delete" ∷ codes "get" ∷ codes "stat" ∷ codes "ls" ∷ []) self.now.name }
    {
        self.name.is("delete") || self.name.is("get") || self.name.is("stat") || self.name.is("ls")
    }

    pub(crate) fn has_bad_version(&self) -> bool
        ensures { result ≡ is_bad_version self.now.version }
    {
        is_bad_version(&self.version)
    }

    fn has(&self, option: &str) -> bool
        ensures { result ≡ has_option option.now self.now }
    {
        is_one_of(self.options.as_slice(), &Word::new(option))
    }

    /// `-b`, and data that is the base64 of no bytes.
    pub(crate) fn has_bad_base64(&self, alloc: Global) -> Result<bool, NoMemory>
        ensures { IfOk result (λ b. b ≡ has_bad_base64 self.now) }
    {
        if !self.has("-b") {
            return Ok(false);
        }
        is_bad_data(alloc, &data_word(self.rest))
    }
}

fn have_options(in_multi: bool, name: &Word<'_>, options: &[Word<'_>]) -> bool
    ensures { result ≡ list_all (is_option_of in_multi name.now) options.now }
{
    options
        .iter()
        .all(|option| is_option_of(in_multi, name, option))
}

/// What a part says.
impl<'a> PartWords<'a> {
    fn path(&self, alloc: Global) -> Result<Text, NoMemory>
        ensures { IfOk result (λ t. t ≡ first self.now.rest) }
    {
        Text::from_str(alloc, first(self.rest).text())
    }

    fn bytes(&self, alloc: Global) -> Result<Bytes, NoMemory>
        ensures { IfOk result (λ b. b ≡ bytes self.now) }
    {
        data_bytes(alloc, self.has("-b"), &data_word(self.rest))
    }

    /// The command.
    pub(crate) fn command(&self, alloc: Global, wait: bool) -> Result<Command, NoMemory>
        ensures { IfOk result (λ c. c ≡ command_of wait self.now) }
    {
        let path = self.path(alloc)?;
        if self.name.is("create") {
            Ok(Command::Create {
                path,
                bytes: self.bytes(alloc)?,
                seq: self.has("-s"),
                eph: self.has("-e"),
                wait,
            })
        } else if self.name.is("set") {
            Ok(Command::Set {
                path,
                bytes: self.bytes(alloc)?,
                version: expected(&self.version),
                wait,
            })
        } else if self.name.is("delete") {
            Ok(Command::Delete {
                path,
                version: expected(&self.version),
                wait,
            })
        } else {
            Ok(self.read(path))
        }
    }

    /// The same of a command that doesn't write.
    fn read(&self, path: Text) -> Command
        ensures { result ≡ read_of path self.now }
    {
        let watch = self.has("-w");
        if self.name.is("get") {
            Command::Get { path, watch }
        } else if self.name.is("stat") {
            Command::Stat { path, watch }
        } else if self.name.is("ls") {
            Command::Ls { path, watch }
        } else {
            Command::Close
        }
    }

    /// The part of a multi.
    pub(crate) fn part(&self, alloc: Global) -> Result<PartCommand, NoMemory>
        ensures { IfOk result (λ p. p ≡ part_of self.now) }
    {
        let path = self.path(alloc)?;
        if self.name.is("create") {
            Ok(PartCommand::Create {
                path,
                bytes: self.bytes(alloc)?,
                eph: self.has("-e"),
            })
        } else if self.name.is("set") {
            Ok(PartCommand::Set {
                path,
                bytes: self.bytes(alloc)?,
                version: expected(&self.version),
            })
        } else {
            Ok(PartCommand::Delete {
                path,
                version: expected(&self.version),
            })
        }
    }
}
