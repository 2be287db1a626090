ghost use Rattle.std.specs.Prelude.{◌≡◌, IfOk};
ghost use Rattle.fk_print.specs.WellFormed.{IsLine};
ghost use Rattle.fk_read.specs.ReadLine.{change_of, expired_of, kind_of, line_of, notice_of, reply_of, tx_of, verb_of};
ghost use Rattle.fk_read.specs.Reads.{Reads, Takes, take};

use crate::act::read_act;
use crate::reply::read_shown;
use crate::unread::Unread;
use crate::words::{Cut, is};
use fk_base::Names;
use fk_print::{Line, Printed, Verb};
use fk_tree::{Change, Kind};

/// Reads a public line, behind its mark.
pub(crate) fn read_line(clients: &Names, mark: &[u8], words: &mut Cut) -> Result<Line, Unread>
    ensures reads { Reads result (line_of clients.now mark.now words.old) }
    ensures fits { IfOk result (IsLine clients.now) }
{
    if is(mark, "+") {
        return read_tx(clients, words);
    }
    if is(mark, "<") {
        return read_command_reply(clients, words);
    }
    if is(mark, "!") {
        return read_notice(clients, words);
    }
    let session = words.client(clients)?;
    let tx = words.at()?;
    Ok(Line::Expired { session, tx })
}

fn read_tx(clients: &Names, words: &mut Cut) -> Result<Line, Unread>
    ensures reads { Reads result (tx_of clients.now words.old) }
    ensures fits { IfOk result (IsLine clients.now) }
{
    let tx = words.number()?;
    let moment = words.number()?;
    let session = words.client(clients)?;
    let k = words.number()?;
    let act = read_act(words)?;
    Ok(Line::Tx(Printed {
        tx,
        moment,
        session,
        k,
        act,
    }))
}

fn read_command_reply(clients: &Names, words: &mut Cut) -> Result<Line, Unread>
    ensures reads { Reads result (reply_of clients.now words.old) }
    ensures fits { IfOk result (IsLine clients.now) }
{
    let session = words.client(clients)?;
    let command = words.small()?;
    let verb = words.verb()?;
    let shown = read_shown(verb, words)?;
    Ok(Line::Reply {
        session,
        command,
        verb,
        shown,
    })
}

fn read_notice(clients: &Names, words: &mut Cut) -> Result<Line, Unread>
    ensures reads { Reads result (notice_of clients.now words.old) }
    ensures fits { IfOk result (IsLine clients.now) }
{
    let session = words.client(clients)?;
    let tx = words.at()?;
    let kind = words.kind()?;
    let change = words.change()?;
    let path = words.path()?;
    Ok(Line::Notice {
        session,
        tx,
        kind,
        change,
        path,
    })
}

#[tactic(auto, unfolding(crate::specs::Reads::take, crate::specs::ReadLine::kind_of, crate::specs::ReadLine::change_of))]
impl<'a> Cut<'a> {
    fn verb(&mut self) -> Result<Verb, Unread>
        ensures { Takes result self.new (take verb_of self.old) }
    {
        let Some(word) = self.next() else {
            return Err(Unread::Malformed);
        };
        match verb(word) {
            Some(verb) => Ok(verb),
            None => Err(Unread::Malformed),
        }
    }

    fn kind(&mut self) -> Result<Kind, Unread>
        ensures { Takes result self.new (take kind_of self.old) }
    {
        let Some(word) = self.next() else {
            return Err(Unread::Malformed);
        };
        if is(word, "data") {
            return Ok(Kind::Data);
        }
        Ok(Kind::Child)
    }

    fn change(&mut self) -> Result<Change, Unread>
        ensures { Takes result self.new (take change_of self.old) }
    {
        let Some(word) = self.next() else {
            return Err(Unread::Malformed);
        };
        if is(word, "NodeCreated") {
            return Ok(Change::Created);
        }
        if is(word, "NodeDataChanged") {
            return Ok(Change::Changed);
        }
        if is(word, "NodeDeleted") {
            return Ok(Change::Deleted);
        }
        Ok(Change::Child)
    }
}

#[tactic(auto, unfolding(crate::specs::ReadLine::verb_of))]
fn verb(word: &[u8]) -> Option<Verb>
    ensures { result ≡ verb_of word.now }
{
    if is(word, "create") {
        return Some(Verb::Create);
    }
    if is(word, "set") {
        return Some(Verb::Set);
    }
    if is(word, "delete") {
        return Some(Verb::Delete);
    }
    if is(word, "get") {
        return Some(Verb::Get);
    }
    if is(word, "stat") {
        return Some(Verb::Stat);
    }
    if is(word, "ls") {
        return Some(Verb::Ls);
    }
    if is(word, "close") {
        return Some(Verb::Close);
    }
    if is(word, "multi") {
        return Some(Verb::Multi);
    }
    None
}
