ghost use Rattle.std.specs.Prelude.{◌≡◌, ◌<◌, ◌≤◌, ◌^◌, IfOk, IfSome};
ghost use Rattle.fk_print.specs.WellFormed.{IsClient, IsShownName};
ghost use Rattle.fk_base.specs.Digits.{expected_of, number_below};
ghost use Rattle.fk_base.specs.Limits.{IsData, IsExpected, IsNumber, IsPath, IsSmall};
ghost use Rattle.fk_read.specs.ReadWords.{at_of, client_of, code_of, data_of, name_of_word, number_of, path_of_word, place_from, small_of};
ghost use Rattle.fk_read.specs.Reads.{Reads, Takes, TakesWord, take};

use crate::data::read_data;
use crate::unread::Unread;
use crate::words::{Cut, is};
use fk_base::{
    Bytes, Code, Names, NoMemory, Path, PathFault, Text, expected_of, is_name, number_below,
};
use std::alloc::Global;

/// The first word, as what it says.
#[tactic(auto, unfolding(crate::specs::Reads::take))]
impl<'a> Cut<'a> {
    pub(crate) fn word(&mut self) -> Result<&'a [u8], Unread>
        ensures { TakesWord result self.new self.old }
    {
        match self.next() {
            Some(word) => Ok(word),
            None => Err(Unread::Malformed),
        }
    }

    pub(crate) fn number(&mut self) -> Result<u64, Unread>
        ensures reads { Takes result self.new (take number_of self.old) }
        ensures fits { IfOk result IsNumber }
    {
        let Some(word) = self.next() else {
            return Err(Unread::Malformed);
        };
        match number(word) {
            Some(number) => Ok(number),
            None => Err(Unread::Malformed),
        }
    }

    pub(crate) fn small(&mut self) -> Result<u32, Unread>
        ensures reads { Takes result self.new (take small_of self.old) }
        ensures fits { IfOk result IsSmall }
    {
        let Some(word) = self.next() else {
            return Err(Unread::Malformed);
        };
        match small(word) {
            Some(number) => Ok(number),
            None => Err(Unread::Malformed),
        }
    }

    /// A number behind `@`.
    pub(crate) fn at(&mut self) -> Result<u64, Unread>
        ensures reads { Takes result self.new (take at_of self.old) }
        ensures fits { IfOk result IsNumber }
    {
        let Some(word) = self.next() else {
            return Err(Unread::Malformed);
        };
        match at(word) {
            Some(number) => Ok(number),
            None => Err(Unread::Malformed),
        }
    }

    pub(crate) fn expected(&mut self) -> Result<i32, Unread>
        ensures reads { Takes result self.new (take expected_of self.old) }
        ensures fits { IfOk result IsExpected }
    {
        let Some(word) = self.next() else {
            return Err(Unread::Malformed);
        };
        match expected(word) {
            Some(version) => Ok(version),
            None => Err(Unread::Malformed),
        }
    }

    pub(crate) fn client(&mut self, clients: &Names) -> Result<u32, Unread>
        ensures reads { Takes result self.new (take (client_of clients.now) self.old) }
        ensures fits { IfOk result (IsClient clients.now) }
    {
        let Some(word) = self.next() else {
            return Err(Unread::Malformed);
        };
        match client(clients, word) {
            Some(session) => Ok(session),
            None => Err(Unread::Malformed),
        }
    }

    pub(crate) fn code(&mut self) -> Result<Code, Unread>
        ensures { Takes result self.new (take code_of self.old) }
    {
        let Some(word) = self.next() else {
            return Err(Unread::Malformed);
        };
        match code(word) {
            Some(code) => Ok(code),
            None => Err(Unread::Malformed),
        }
    }

    pub(crate) fn path(&mut self) -> Result<Path, Unread>
        ensures reads { Takes result self.new (take path_of_word self.old) }
        ensures fits { IfOk result IsPath }
    {
        let Some(word) = self.next() else {
            return Err(Unread::Malformed);
        };
        path_word(self.allocator(), word)
    }

    /// A name that a listing shows.
    pub(crate) fn name(&mut self) -> Result<Text, Unread>
        ensures reads { Takes result self.new (take name_of_word self.old) }
        ensures fits { IfOk result IsShownName }
    {
        let Some(word) = self.next() else {
            return Err(Unread::Malformed);
        };
        read_name(self.allocator(), word)
    }

    pub(crate) fn data(&mut self) -> Result<Bytes, Unread>
        ensures reads { Takes result self.new (take data_of self.old) }
        ensures fits { IfOk result IsData }
    {
        let Some(word) = self.next() else {
            return Err(Unread::Malformed);
        };
        read_data(self.allocator(), word)
    }
}

/// The number that a word says, below a limit.
#[tactic(auto, using(fk_base::proofs::Numerals::no_text))]
fn below(word: &[u8], limit: u64) -> Option<u64>
    ensures reads { result ≡ number_below limit word.now }
    ensures fits { IfSome result (λ n. n < limit) }
{
    match str::from_utf8(word) {
        Ok(text) => number_below(text, limit),
        Err(_) => None,
    }
}

#[tactic(auto, unfolding(crate::specs::ReadWords::number_of))]
pub(crate) fn number(word: &[u8]) -> Option<u64>
    ensures reads { result ≡ number_of word.now }
    ensures fits { IfSome result IsNumber }
{
    below(word, 1 << 63)
}

#[tactic(auto, unfolding(crate::specs::ReadWords::small_of))]
pub(crate) fn small(word: &[u8]) -> Option<u32>
    ensures reads { result ≡ small_of word.now }
    ensures fits { IfSome result IsSmall }
{
    match below(word, 1 << 32) {
        Some(number) => Some(number as u32),
        None => None,
    }
}

#[tactic(auto, unfolding(crate::specs::ReadWords::at_of))]
pub(crate) fn at(word: &[u8]) -> Option<u64>
    ensures reads { result ≡ at_of word.now }
    ensures fits { IfSome result IsNumber }
{
    match word {
        [] => None,
        [mark, digits @ ..] => { if *mark == b'@' { number(digits) } else { None } }
    }
}

/// The expected version that a word says.
#[tactic(auto, using(fk_base::proofs::Numerals::no_version))]
fn expected(word: &[u8]) -> Option<i32>
    ensures reads { result ≡ expected_of word.now }
    ensures fits { IfSome result IsExpected }
{
    match str::from_utf8(word) {
        Ok(text) => expected_of(text),
        Err(_) => None,
    }
}

/// The place of the client's name, from 1.
#[tactic(auto, unfolding(crate::specs::ReadWords::client_of))]
pub(crate) fn client(clients: &Names, word: &[u8]) -> Option<u32>
    ensures reads { result ≡ client_of clients.now word.now }
    ensures fits { IfSome result (IsClient clients.now) }
{
    match place_of(clients, word) {
        Some(place) => {
            if place < 1 << 32 {
                Some(place as u32)
            } else {
                None
            }
        }
        None => None,
    }
}

fn place_of(clients: &Names, word: &[u8]) -> Option<usize>
    ensures reads { result ≡ place_from 1 clients.now word.now }
    ensures fits { IfSome result (IsClient clients.now) }
{
    let mut place = 1;
    'looking: for name in clients.as_slice() {
        if is(word, name.as_str()) {
            return Some(place);
        }
        place += 1;
    }
    None
}

#[tactic(auto, unfolding(crate::specs::ReadWords::code_of))]
fn code(word: &[u8]) -> Option<Code>
    ensures { result ≡ code_of word.now }
{
    if is(word, "SYSTEMERROR") {
        return Some(Code::SystemError);
    }
    if is(word, "CONNECTIONLOSS") {
        return Some(Code::ConnectionLoss);
    }
    if is(word, "BADARGUMENTS") {
        return Some(Code::BadArguments);
    }
    if is(word, "NONODE") {
        return Some(Code::NoNode);
    }
    if is(word, "BADVERSION") {
        return Some(Code::BadVersion);
    }
    if is(word, "NOCHILDRENFOREPHEMERALS") {
        return Some(Code::NoChildrenForEphemerals);
    }
    if is(word, "NODEEXISTS") {
        return Some(Code::NodeExists);
    }
    if is(word, "NOTEMPTY") {
        return Some(Code::NotEmpty);
    }
    if is(word, "SESSIONEXPIRED") {
        return Some(Code::SessionExpired);
    }
    None
}

#[tactic(auto, unfolding(crate::specs::ReadWords::path_of_word), using(crate::proofs::Numbers::not_utf8))]
pub(crate) fn path_word(alloc: Global, word: &[u8]) -> Result<Path, Unread>
    ensures reads { Reads result (path_of_word word.now) }
    ensures fits { IfOk result IsPath }
{
    let Ok(text) = str::from_utf8(word) else {
        return Err(Unread::Malformed);
    };
    match Path::parse(alloc, text) {
        Ok(path) => Ok(path),
        Err(PathFault::BadPath) => Err(Unread::Malformed),
        Err(PathFault::NoMemory) => Err(Unread::NoMemory),
    }
}

#[tactic(auto, unfolding(crate::specs::ReadWords::name_of_word), using(crate::proofs::Numbers::not_utf8, crate::proofs::Numbers::utf8_is))]
fn read_name(alloc: Global, word: &[u8]) -> Result<Text, Unread>
    ensures reads { Reads result (name_of_word word.now) }
    ensures fits { IfOk result IsShownName }
{
    let Ok(text) = str::from_utf8(word) else {
        return Err(Unread::Malformed);
    };
    if !is_name(text) {
        return Err(Unread::Malformed);
    }
    match Text::from_str(alloc, text) {
        Ok(name) => Ok(name),
        Err(NoMemory) => Err(Unread::NoMemory),
    }
}
